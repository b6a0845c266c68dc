//! Formulas of gates in QCIR-14 (Jordan, Klieber, Seidl 2016): reading them from bytes, and writing
//! them.
//!
//! - Owns: texts of formulas of gates, and their names.
//! - Offers: `read_question`, `Question`, `write_question`, `read_bytes`, `QuestionFault`, the laws.
//! - Proved: exactly the formula of gates that the bytes spell, which is well formed and numbered in
//!   the order of its names, or exactly the first fault and its line; its canonical text goes out
//!   whole, or a beginning of it, and is read as it again.
//! - Read first: the definition `IsQuestion`; `read_question`, `reading_laws`.
//! - Tested only: the crate `gate_tests`: worked texts, each fault with its line, texts cut at each
//!   place, sources and allocations that fail.
//! - Trusted: `indexmap`, `memchr`.
#![tactic(auto)]

mod fault;
mod header;
mod key;
mod keyword;
mod laws;
mod lines;
mod literals;
mod missing;
mod names;
mod parts;
mod question;
mod reader;
mod source;
mod split;
mod text;
mod writing;

pub use fault::QuestionFault;
pub use laws::reading_laws;
pub use question::Question;
pub use source::read_bytes;
pub use text::read_question;
pub use writing::write_question;
