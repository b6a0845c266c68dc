//! Numbers of a window of bytes, read before anybody asks for them.
//!
//! - Owns: where numbers stand among buffered bytes, their values, and the cursors between them.
//! - Offers: `Numbers`, `Values`, `Zeros`, `Cursor`; `four_numbers`, `four_numbers_between`.
//! - Proved: a number that is held stands at its place among the bytes of the window, with its
//!   separator, whatever bytes follow; a cursor counts bytes and lines; the values of four signed
//!   numbers in a row or between places, and which of them are zero.
//! - Read first: `Numbers::fill`, `Numbers::pass`, `Numbers::cursor_after`; `Cursor::token`.
//! - Tested only: that usual numbers are found, which only the time of a check shows; its own
//!   tests: that `four_numbers` returns them, in each place of a row, and not `None`.
//! - Trusted: nothing.
//! - On the map: numbers of a window | each stands at its place.
#![tactic(auto)]

mod comments;
mod cursor;
mod ends;
mod filling;
mod four;
mod lanes;
mod lines;
mod marks;
mod numbers;
mod places;
mod separators;
mod tails;
mod usual;
mod values;
mod zeros;

pub use cursor::{Cursor, Passed};
pub use four::{FourNumbers, four_numbers, four_numbers_between};
pub use numbers::{Numbers, ROOM};
pub use values::Values;
pub use zeros::Zeros;
