//! Many clauses that are handed over at once.

ghost use Rattle.std.specs.Prelude.{◌≡◌, ◌≢◌, ◌∷◌, ◌+◌, ◌≤◌, [], drop, length, take, IfErr, OnOk};
ghost use Rattle.qrp_handle.specs.Adding.{IsClauseFault};
ghost use Rattle.qrp_handle.specs.Many.{AreAdded, clauses_of, clause_after};

use crate::fault::AddFault;
use crate::proof::Proof;
use std::alloc::Global;

/// The length of the first clause: up to its zero, or to the end.
#[tactic(auto, using(crate::proofs::Splitting::first_split, crate::proofs::Splitting::whole_split))]
fn first_length(written: &[i32]) -> usize
    ensures within { result ≤ length written.now }
    ensures first { written.now ≢ [] → clauses_of written.now
        ≡ take result written.now ∷ clauses_of (drop (result + 1) written.now) }
{
    for i in 0..written.len() {
        if written[i] == 0 {
            return i;
        }
    }
    written.len()
}

/// The numbers after the first clause and its zero.
fn after(written: &[i32], end: usize) -> &[i32]
    requires { end ≤ length written.now }
    ensures { result.now ≡ drop (end + 1) written.now }
{
    if end == written.len() {
        return &written[end..];
    }
    &written[end + 1..]
}

impl Proof {
    /// Adds the clauses that these numbers write: each ends with a 0, which the last may lack.
    ///
    /// Returns how many were added, and why the next one was not.
    ///
    /// # Errors
    /// As of `push_clause`. The clauses before it are added then.
    pub fn push_clauses(&mut self, alloc: Global, written: &[i32]) -> (usize, Result<(), AddFault>)
        ensures added { AreAdded result.0 written.now self.old self.new }
        ensures all { OnOk result.1 (result.0 ≡ length (clauses_of written.now)) }
        ensures refused { IfErr result.1
            (IsClauseFault self.new.formula (clause_after result.0 written.now)) }
    {
        // The length of the list shows that the count fits.
        let _ = written.len();
        let mut count = 0;
        let mut rest = written;
        while !rest.is_empty() {
            let end = first_length(rest);
            if let Err(fault) = self.push_clause(alloc, &rest[..end]) {
                return (count, Err(fault));
            }
            rest = after(rest, end);
            count += 1;
        }
        (count, Ok(()))
    }
}
