//! What every program is: words, files that are opened, a job on them, and its report.
//!
//! - Owns: how a program opens its files, and how it reports.
//! - Offers: `program`, `Jobs`, `Open`, `Sources`, `Streams`.
//! - Proved: `program` writes exactly the report of the command line's job on the files that it
//!   names to the right stream, with its status, whatever the jobs are and whatever opens the files.
//! - Read first: `Jobs`, `program`.
//! - Tested only: by the tests of the programs.
//! - Trusted: nothing.
//! - On the map: words, files and reports.
#![tactic(auto)]

mod answering;
mod jobs;
mod open;
mod open_fault;
mod sending;
mod sources;
mod start;
mod stream;

pub use answering::program;
pub use jobs::{Jobs, is_word};
pub use open::{LIMIT, Open};
pub use open_fault::OpenFault;
pub use sending::{Status, finish_sent, send_fault};
pub use sources::Sources;
pub use start::Start;
pub use stream::{Stream, Streams};
