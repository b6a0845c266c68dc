//! What a program can be asked for.

ghost use Rattle.std.specs.Prelude.{◌≡◌, ◌<◌, ◌↔◌, List, ℕ, map, IsTrue, IfSome, IfNone, length};
ghost use Rattle.std.specs.String.{string_bytes};
ghost use Rattle.qrp_check.specs.Checked.{SourceCall, call_of};
ghost use Rattle.qrp_program.specs.Output.{Report, IsReported};
ghost use Rattle.qrp_program.specs.Words.{Request};
ghost use Rattle.qrp_program.specs.declared.stream.Stream.{Stream};

use crate::sending::Status;
use crate::sources::Sources;
use crate::stream::{Stream, Streams};
use qbf_text::{Sink, Source};
use std::alloc::Global;

/// Whether the word is this one.
pub fn is_word(word: &String, name: &str) -> bool
    ensures { IsTrue result ↔ (string_bytes word.now ≡ name.now) }
{
    word.as_str() == name
}

/// The jobs of a program. A value is one of them, with all that the words of its command line say
/// beside the names of files.
pub trait Jobs: Copy {
    /// The rows of the usage: the words after the program's name that ask for a job, and the places
    /// of its files among them.
    ghost is_row: { List (List ℕ) → Request Self → Type 0 };

    /// The stream that the refusals of a job go to.
    ghost refusals: { Self → Stream };

    /// The report of a job on a formula and a trace.
    ghost is_output: { Self → SourceCall → SourceCall → Report → Type 0 };

    /// The job and the places of its formula and its trace among the words, counted from 0, if the
    /// words are a row of the usage.
    fn request(words: &[String]) -> Option<(Self, usize, Option<usize>)>
        ensures row { IfSome result (λ r. is_row (map (λ w. string_bytes w) words.now)
            (record { job = r.0; formula = r.1; trace = r.2 })) }
        ensures within { IfSome result
            (λ r. (r.1 < length words.now) × IfSome r.2 (λ t. t < length words.now)) }
        ensures none { IfNone result
            ((r : Request Self) → is_row (map (λ w. string_bytes w) words.now) r → ⊥) };

    /// The stream that the refusals of this job go to.
    fn refused_on(self) -> Stream
        ensures { result ≡ refusals self };

    /// Does this job on a formula and a trace, and writes its report to one of the streams. The
    /// other one gets nothing.
    fn run<F: Source, T: Source, O: Sink, E: Sink>(
        self,
        alloc: Global,
        sources: &mut Sources<F, T>,
        streams: &mut Streams<O, E>,
    ) -> Status
        ensures { (r : Report)
            × is_output self (call_of F.Source sources.old.formula sources.new.formula)
            (call_of T.Source sources.old.trace sources.new.trace) r
            × IsReported O.Sink E.Sink streams.old streams.new r result };
}
