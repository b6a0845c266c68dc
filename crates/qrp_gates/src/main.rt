//! The program `qrp_gates`: questions in gates, their clauses, the check of traces of them, and the
//! winner's circuit.
//!
//! - Owns: its command line and its reports.
//! - Offers: the program.
//! - Proved: `run` writes exactly the report for its files to the right sink, with its status. With
//!   status 0, `check` printed the truth of the formula of gates, `clauses` wrote its clauses, and
//!   `strategy` the circuit by which its winner wins, with the names of its variables.
//! - Read first: `run`, `request`, and then `program` of `qrp_program`.
//! - Tested only: over the built program.
//! - Trusted: std's files, arguments and streams, as `main` uses them.
//! - On the map: the program qrp_gates.
#![tactic(auto)]

mod job;
mod lines;
mod program;
mod running;
mod words;

use buffered_sink::Buffered;
use job::Job;
use qbf_text::ToWrite;
use qrp_program::{Streams, program};
use qrp_system::{SystemFiles, given_words};
use std::process::ExitCode;

fn main(rt: HostRuntime) -> ExitCode {
    let mut streams = Streams {
        out: Buffered::new(ToWrite::new(rt.stdout())),
        err: ToWrite::new(rt.stderr()),
    };
    let files = SystemFiles::new(&rt);
    let words = given_words(&rt);
    ExitCode::from(program::<Job, _, _, _>(rt.alloc(), &files, words, &mut streams))
}
