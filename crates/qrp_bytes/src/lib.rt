//! Checks, trims and formats texts in memory, for callers that lend bytes: results go to a struct
//! and to buffers.
//!
//! - Owns: the jobs of the program on bytes in memory, with results in a struct and in buffers.
//! - Offers: `verify_bytes`, `trim_bytes`, `list_core`, `strategy_bytes`, `format_bytes`,
//!   `gates_verify_bytes`, `gates_clauses_bytes`, `gates_strategy_bytes`, `Wanted`, `line_of`,
//!   `meaning_of`, `put_text`, `put_numbers`.
//! - Proved: the headline over the bytes lent, each field of the struct, the line, the meaning, the
//!   trimmed trace, the core, the winner's strategy and the canonical formula; and of a formula of
//!   gates the same headline, its clauses and its winner's strategy.
//! - Read first: `verify_bytes`, `trim_bytes`, `list_core`, `strategy_bytes`, `format_bytes`,
//!   `gates_verify_bytes`, `gates_clauses_bytes`, `gates_strategy_bytes`, `line_of`.
//! - Tested only: by the tests of `qrp_c`.
//! - Trusted: nothing.
//! - On the map: the jobs on bytes in memory, | results in a struct and buffers.
#![tactic(auto)]

mod buffer;
mod formatting;
mod gate_verdict;
mod gates;
mod line;
mod lines;
mod proving;
mod strategy;
mod verdict;
mod wanted;

pub use buffer::{put_numbers, put_text};
pub use formatting::format_bytes;
pub use gate_verdict::encode_unverified;
pub use gates::{gates_clauses_bytes, gates_strategy_bytes, gates_verify_bytes};
pub use line::Line;
pub use lines::{line_of, meaning_of};
pub use proving::{list_core, numbers_at, trim_bytes, verify_bytes};
pub use strategy::strategy_bytes;
pub use verdict::{QrpVerdict, encode_fault, encode_nothing, encode_truth};
pub use wanted::Wanted;
