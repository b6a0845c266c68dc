//! Decimal numbers among bytes: read from a position on, and put at a position.
//!
//! - Owns: decimal numbers among bytes, read and put there.
//! - Offers: `digits`, `number_between`, `number_with_last`, `put_digits`.
//! - Proved: the value and the length of the digits at a position; the digits of a number, put at a
//!   position.
//! - Read first: `digits`, `put_digits`.
//! - Tested only: its own tests: numbers of each length, at the end of the bytes and before it.
//! - Trusted: `itoa`.
//! - On the map: digits of numbers.
#![tactic(auto)]

mod number;
mod word;
mod writing;

pub use number::{digits, number_between, number_with_last};
pub use writing::put_digits;
