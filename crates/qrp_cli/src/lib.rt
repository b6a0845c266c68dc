//! The jobs of `qrp_cmd`, without the system: check, trim and format.
//!
//! - Owns: command lines and jobs of the program.
//! - Offers: `Job`, `request`, `run`; `texts`, `send_formula`, `send_verdict` for another program.
//! - Proved: `run` writes exactly the report of its job for two sources; `request` accepts exactly
//!   the command lines of the usage.
//! - Read first: `run`, `request`.
//! - Tested only: the crate `program_tests`: command lines, files in memory, pulls and pushes that
//!   fail at each position.
//! - Trusted: nothing.
//! - On the map: check, trim and format.
#![tactic(auto)]

mod job;
mod program;
mod running;
mod words;

pub use job::Job;
pub use running::{run, send_formula, send_verdict};
pub use words::{request, texts};
