//! The program `qrp_strategy`: writes the winner's whole strategy as a circuit in AIGER's format.
//!
//! - Owns: its command line and its reports.
//! - Offers: the program.
//! - Proved: `run` writes exactly the report for its files to the right sink, with its status; if it
//!   ends with status 0, the text is that of a circuit by which the winner wins.
//! - Read first: `run`, `request`, and then `program` of `qrp_program`.
//! - Tested only: over the built program.
//! - Trusted: std's files, arguments and streams, as `main` uses them.
//! - On the map: the program qrp_strategy.
#![tactic(auto)]

mod program;
mod running;
mod task;
mod words;

use buffered_sink::Buffered;
use qbf_text::ToWrite;
use qrp_program::{Streams, program};
use qrp_system::{SystemFiles, given_words};
use std::process::ExitCode;
use task::Task;

fn main(rt: HostRuntime) -> ExitCode {
    let mut streams = Streams {
        out: Buffered::new(ToWrite::new(rt.stdout())),
        err: ToWrite::new(rt.stderr()),
    };
    let files = SystemFiles::new(&rt);
    let words = given_words(&rt);
    ExitCode::from(program::<Task, _, _, _>(rt.alloc(), &files, words, &mut streams))
}
