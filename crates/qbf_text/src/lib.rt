//! Bytes in and out, and the tokens of QDIMACS and QRP texts as they come.
//!
//! - Owns: bytes in and out, tokens one after the other, numbers as they are written.
//! - Offers: `Source`, `Sink`, `Scanner::next_token`, `Grammar`, `read_by`,
//!   `read_text`, `put_number`, `put_bytes`, `put_byte`, `put_spaced`, `put_signed`,
//!   `put_spaced_signed`.
//! - Proved: a scanner with a fixed buffer gives exactly the tokens, however its input is cut;
//!   numbers and bytes go out whole, or a beginning of them.
//! - Read first: `Scanner::next_token`, `read_by`; `put_number`, `put_bytes`.
//! - Tested only: the crate `formula_tests`: worked texts and long tokens in pieces of 1, 2, 3 and
//!   4,096 bytes, sources and sinks that fail.
//! - Trusted: `itoa`.
//! - On the map: Source, Sink, Scanner | the tokens of bytes, however they are cut.
#![tactic(auto)]

mod grammar;
mod lines;
mod pieces;
mod scanner;
mod sink;
mod source;
mod spelling;
mod window;

pub use grammar::{Grammar, Progress, ReadError, Stop, Taken, read_by, read_text};
pub use pieces::{PieceOptions, PieceSink, PieceSource};
pub use scanner::{ScanFault, Scanner};
pub use sink::{Sink, SinkFault, ToWrite, VecSink, put_byte, put_bytes, put_number};
pub use source::{FromRead, SliceSource, Source, SourceFault};
pub use spelling::{put_signed, put_spaced, put_spaced_signed};
