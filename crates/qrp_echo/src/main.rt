//! The program `qrp_echo` reads a trace from its input and writes its canonical text. It is for
//! tests alone: a trace that is written and read again is to be the same.  Status 0: done; 1: the
//! bytes are not a trace, and nothing was written; 3: a device failed; 4: an allocation failed.
//!
//! - Owns: a second program, for tests alone: traces read and written again.
//! - Proved: `echo` writes exactly the canonical text of the trace that its bytes spell, and
//!   nothing of a fault.
//! - Read first: `echo`.
//! - Tested only: over the built program: each trace of the tests is written again.
//! - Trusted: std's streams.
#![tactic(auto)]

mod echo;

pub use echo::{Status, echo};
use qbf_text::{FromRead, ToWrite};
use std::io::BufWriter;
use std::process::ExitCode;

/// The most bytes that are read of the input.
const LIMIT: u64 = 4611686018427387904;

/// The status if an allocation failed.
const NO_MEMORY: Status = 4;

fn main(rt: HostRuntime) -> ExitCode {
    let Ok(mut out) = BufWriter::new(rt.alloc(), rt.stdout()) else {
        return ExitCode::from(NO_MEMORY);
    };
    let mut source = FromRead::new(rt.stdin(), LIMIT);
    let mut sink = ToWrite::new(&mut out);
    let status = echo(rt.alloc(), &mut source, &mut sink);
    // The bytes that a failed writer still holds are not sent again.
    let (_out, _unsent) = out.into_parts();
    ExitCode::from(status)
}
