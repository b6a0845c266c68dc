//! The program `qrp_cmd`: its files, arguments and streams are those of the system.
//!
//! - Owns: `main`.
//! - Offers: the program.
//! - Proved: nothing of its own: what it calls is proved.
//! - Read first: `main`, and then `program` of `qrp_program`.
//! - Tested only: over the built program: rows and damaged texts, whole and byte by byte, real
//!   traces, failed allocations, files and devices, large inputs.
//! - Trusted: std's files, arguments and streams, as `main` uses them.
//! - On the map: the program.
#![tactic(auto)]

use buffered_sink::Buffered;
use qbf_text::ToWrite;
pub use qrp_cli::{Job, request, run};
pub use qrp_program::{Start, Status};
use qrp_program::{Streams, program};
use qrp_system::{SystemFiles, given_words};
use std::process::ExitCode;

fn main(rt: HostRuntime) -> ExitCode {
    let mut streams = Streams {
        out: Buffered::new(ToWrite::new(rt.stdout())),
        err: ToWrite::new(rt.stderr()),
    };
    let files = SystemFiles::new(&rt);
    let words = given_words(&rt);
    ExitCode::from(program::<Job, _, _, _>(rt.alloc(), &files, words, &mut streams))
}
