//! The syntax that QDIMACS and QRP share: headers, literals, variables, quantifiers and sets.
//!
//! - Owns: the syntax that both formats share: headers, literals, variables, quantifiers, sets.
//! - Offers: `header_move`, `HeaderForm`, `decode_member`, `decode_literal`, `decode_quantifier`,
//!   `Faults`, `extend_literals`, `Put`, `Bytes`, `Bare`, `HeaderLine`.
//! - Proved: the meaning of a token, with the faults of either format; headers, literals and sets
//!   go out whole, or a beginning of them.
//! - Read first: `header_move`, `decode_member`, `decode_literal`; `Put`.
//! - Tested only: by the tests of `qdimacs` and `qrp`.
//! - Trusted: nothing.
//! - On the map: headers, literals, sets: | the syntax of both formats.
#![tactic(auto)]

mod decode;
mod header;
mod literals;
mod writing;

pub use decode::{Faults, decode_literal, decode_member, decode_quantifier};
pub use header::{HeaderAt, HeaderForm, HeaderMove, header_move};
pub use literals::extend_literals;
pub use writing::{Bare, Bytes, HeaderLine, Put};
