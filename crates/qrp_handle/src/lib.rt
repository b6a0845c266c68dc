//! A formula and its proof that a caller in C hands over clause by clause and step by step.
//!
//! - Owns: the struct that a caller keeps, what it holds, and the statuses of what is added.
//! - Offers: `QrpProof`, `Proof`, `WrittenStep`, `AddFault`, `status_of`, `outcome_of`,
//!   `literals_of`, `written_laws`.
//! - Proved: what each addition changes; that the fault which refuses one stands, and that nothing
//!   is changed then; what the verdict says of the formula and the steps that were handed over;
//!   that their texts are read as them, with the same verdict; that the struct owns what it holds.
//! - Read first: `Proof::push_variable`, `Proof::push_clause`, `Proof::push_clauses`,
//!   `Proof::push_step`, `Proof::check`, `Proof::write_formula`, `Proof::write_trace`,
//!   `written_laws`.
//! - Tested only: by the tests of `qrp_c`.
//! - Trusted: nothing.
//! - On the map: a proof handed over, | piece by piece.
#![tactic(auto)]

mod claim;
mod clauses;
mod fault;
mod handle;
mod held;
mod laws;
mod loose;
mod proof;
mod status;
mod texts;
mod written;

pub use claim::outcome_of;
pub use fault::AddFault;
pub use handle::QrpProof;
pub use laws::written_laws;
pub use proof::Proof;
pub use status::{NOTHING, status_of};
pub use written::{WrittenStep, literals_of};
