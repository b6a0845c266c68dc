//! The tokens that QDIMACS and QRP texts are made of: what a text spells, as definitions, and the
//! kind of a run of bytes.
//!
//! - Owns: tokens, and which bytes spell them.
//! - Offers: `Token`, `Word`, `Comments`; `is_separator`; `Run`, `Numeral`, `Spelling`,
//!   `begins_number`.
//! - Proved: the kind of a run, kept while its bytes are read, whatever its length; tokens that are
//!   written are read again.
//! - Read first: `Token`, and the definition `tokens`; `Run::kind`.
//! - Tested only: nothing.
//! - Trusted: nothing.
//! - On the map: tokens | the kind of a run.
#![tactic(auto)]

mod run;
mod separators;
mod token;

pub use run::{Numeral, Run, Spelling, begins_number};
pub use separators::is_separator;
pub use token::{Comments, Token, Word};
