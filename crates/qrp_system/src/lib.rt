//! The system's arguments and files, as the programs take them.
//!
//! - Owns: the system's arguments and files.
//! - Offers: `given_words`, `SystemFiles`.
//! - Proved: the arguments without the program's name; the files of the system keep to `Open`.
//! - Read first: `given_words`, `SystemFiles`.
//! - Tested only: over the built programs.
//! - Trusted: std's files and arguments.
#![tactic(auto)]

mod arguments;
mod files;

pub use arguments::given_words;
pub use files::SystemFiles;
