//! The exported functions over a proof that a caller in C hands over.

ghost use Rattle.std.specs.Prelude.{◌≡◌, ◌≢◌, ◌↔◌, ◌⊎◌, [], ◌∷◌, ◌++◌, drop, map, None, IsSomeAnd};
ghost use Rattle.std.specs.Prelude.{IfErr, IfNone, IfOk, IfSome, IsTrue, List, OnOk, length, pos, ℕ};
ghost use Rattle.qbf_core.specs.Blocks.{pairs};
ghost use Rattle.qrp_handle.specs.Adding.{IsVariableFault, IsClauseFault, IsStepFault};
ghost use Rattle.qrp_bytes.specs.Texts.{encoded_nothing};
ghost use Rattle.qrp_handle.specs.Checks.{AreWellFormed, HasCore, outcome_of, quantifier_of};
ghost use Rattle.qrp_handle.specs.Many.{AreAdded, clause_after, clauses_of};
ghost use Rattle.qrp_handle.specs.Statuses.{CallReturns, code_of};
ghost use Rattle.qrp_handle.specs.declared.fault.AddFault.{AddFault};
ghost use Rattle.qrp_c.specs.Checked.{IsCoreOf, IsRefused, IsVerdictOf, IsVerified};
ghost use Rattle.qbf_core.specs.Truth.{IsTrueFormula};
ghost use Rattle.trace_items.specs.Derivations.{steps_at};
ghost use Rattle.trace_items.specs.Inferences.{numbers};
ghost use Rattle.core_walk.specs.Core.{ListsCore};
ghost use Rattle.trace_check.specs.Proof.{IsFirstFault};
ghost use Rattle.trace_check.specs.declared.fault.CheckFault.TheVariants.{C5};
ghost use Rattle.qbf_core.specs.WrittenLiterals.{literal_of};

use qbf_core::Quantifier;
use qrp_bytes::{QrpVerdict, encode_fault, encode_nothing, encode_truth, numbers_at, put_numbers};
use qrp_check::{CheckFault, Fault};
use qrp_handle::{NOTHING, Proof, QrpProof, WrittenStep, outcome_of, status_of};
use qrp_rules::Rules;
use std::alloc::Global;
use trace_items::LentSteps;

/// Makes a proof with no variable, no clause and no step.
///
/// In C: `int32_t qrp_proof_new(struct qrp_proof *proof)`.
#[unsafe(no_mangle)]
pub extern "C" fn qrp_proof_new(alloc: Global, proof: &mut QrpProof) -> i32
    ensures made { result ≡ pos 0 → IsSomeAnd proof.new.held.value (λ p.
        (p.formula ≡ record { max_var = 2147483647; blocks = []; clauses = [] })
        × (p.trace.steps ≡ [])) }
    ensures kept { result ≢ pos 0 → proof.new.held.value ≡ proof.old.held.value }
    ensures memory { result ≢ pos 0 → result ≡ pos 4 }
{
    match Box::new(alloc, Proof::new(alloc)) {
        Ok(made) => {
            *proof = QrpProof::of(made);
            0
        }
        Err(_) => 4,
    }
}

/// Binds a variable innermost: in the last block if that has this quantifier, else in a new one.
///
/// In C: `int32_t qrp_proof_variable(struct qrp_proof *proof, bool universal, uint32_t variable)`.
#[unsafe(no_mangle)]
pub extern "C" fn qrp_proof_variable(
    alloc: Global,
    proof: &mut QrpProof,
    universal: bool,
    variable: u32,
) -> i32
    ensures { CallReturns
        (λ p q. (pairs q.formula.blocks
        ≡ pairs p.formula.blocks ++ (quantifier_of universal, variable) ∷ [])
        × (q ≡ record p { formula = record p.formula { blocks = q.formula.blocks } }))
        (λ p e. IsVariableFault p.formula variable e)
        proof.old.held.value proof.new.held.value result }
{
    match proof.take(alloc) {
        Some(mut held) => {
            let status = status_of(held.push_variable(quantifier_of(universal), variable));
            *proof = QrpProof::of(held);
            status
        }
        None => NOTHING,
    }
}

fn quantifier_of(universal: bool) -> Quantifier
    ensures { result ≡ quantifier_of universal }
{
    if universal {
        Quantifier::All
    } else {
        Quantifier::Exists
    }
}

/// Adds a clause.
///
/// In C: `int32_t qrp_proof_clause(struct qrp_proof *proof, const int32_t *literals, size_t
/// count)`.
#[unsafe(no_mangle)]
pub extern "C" fn qrp_proof_clause(alloc: Global, proof: &mut QrpProof, literals: &[i32]) -> i32
    ensures { CallReturns
        (λ p q. q ≡ record p {
          formula = record p.formula {
            clauses = p.formula.clauses ++ map literal_of literals.now ∷ [];
          };
        })
        (λ p e. IsClauseFault p.formula literals.now e)
        proof.old.held.value proof.new.held.value result }
{
    match proof.take(alloc) {
        Some(mut held) => {
            let status = status_of(held.push_clause(alloc, literals));
            *proof = QrpProof::of(held);
            status
        }
        None => NOTHING,
    }
}

/// Adds the clauses that these numbers write: each ends with a 0, which the last may lack.
///
/// In C: `int32_t qrp_proof_clauses(struct qrp_proof *proof, const int32_t *literals, size_t count,
/// size_t *added)`.
///
/// Writes to `added` how many of them were added, from the first on. If one was not, the status is
/// that which `qrp_proof_clause` has for it.
#[unsafe(no_mangle)]
pub extern "C" fn qrp_proof_clauses(
    alloc: Global,
    proof: &mut QrpProof,
    literals: &[i32],
    added: &mut usize,
) -> i32
    ensures added { IfSome proof.old.held.value (λ p.
        IsSomeAnd proof.new.held.value (AreAdded added.new literals.now p)) }
    ensures all { result ≡ pos 0 → added.new ≡ length (clauses_of literals.now) }
    ensures refused { (e : AddFault) → result ≡ pos (code_of e)
        → IsSomeAnd proof.new.held.value (λ q.
        IsClauseFault q.formula (clause_after added.new literals.now) e) }
    ensures nothing { (result ≡ pos 11 → proof.old.held.value ≡ None)
        × IfNone proof.old.held.value
        ((result ≡ pos 11) × (added.new ≡ 0) × (proof.new.held.value ≡ None)) }
{
    match proof.take(alloc) {
        Some(mut held) => {
            let (count, outcome) = held.push_clauses(alloc, literals);
            *proof = QrpProof::of(held);
            *added = count;
            status_of(outcome)
        }
        None => {
            *added = 0;
            NOTHING
        }
    }
}

/// Adds a step.
///
/// In C: `int32_t qrp_proof_step(struct qrp_proof *proof, uint64_t number, const int32_t *literals,
/// size_t count, const uint64_t *antecedents, size_t antecedent_count)`.
#[unsafe(no_mangle)]
pub extern "C" fn qrp_proof_step(
    alloc: Global,
    proof: &mut QrpProof,
    number: u64,
    literals: &[i32],
    antecedents: &[u64],
) -> i32
    ensures { CallReturns
        (λ p q. q ≡ record p {
          trace = record p.trace {
            steps = p.trace.steps ++ record {
              number = number;
              lits = map literal_of literals.now;
              ants = antecedents.now;
            } ∷ [];
          };
        })
        (λ p e. IsStepFault p.trace.steps number literals.now antecedents.now e)
        proof.old.held.value proof.new.held.value result }
{
    match proof.take(alloc) {
        Some(mut held) => {
            let step = WrittenStep {
                number,
                lits: literals,
                ants: antecedents,
            };
            let status = status_of(held.push_step(alloc, step));
            *proof = QrpProof::of(held);
            status
        }
        None => NOTHING,
    }
}

/// Whether the steps prove that the formula is true, or that it is false, as `sat` says.
///
/// In C: `int32_t qrp_proof_check(struct qrp_proof *proof, bool sat, bool any_pivot, struct
/// qrp_verdict *out)`.
///
/// Writes the whole of `out`, and returns its status; zeros, and 11, if there is no proof. More can
/// be added after it, and be checked.
#[unsafe(no_mangle)]
pub extern "C" fn qrp_proof_check(
    alloc: Global,
    proof: &mut QrpProof,
    sat: bool,
    any_pivot: bool,
    out: &mut QrpVerdict,
) -> i32
    ensures checked { IfSome proof.old.held.value (λ p. IsVerdictOf (record { any_pivot = any_pivot })
        p.formula p.trace.steps sat out.new × (result ≡ pos out.new.status)) }
    ensures nothing { IfNone proof.old.held.value
        ((out.new ≡ encoded_nothing) × (result ≡ pos 11)) }
    ensures kept { proof.new.held.value ≡ proof.old.held.value }
    ensures sound { IfSome proof.old.held.value (λ p. AreWellFormed p.formula p.trace) }
{
    match proof.take(alloc) {
        Some(held) => {
            let verdict = verdict_of(alloc, &held, sat, Rules { any_pivot });
            *proof = QrpProof::of(held);
            *out = verdict;
            i32::from(verdict.status)
        }
        None => {
            *out = encode_nothing();
            NOTHING
        }
    }
}

/// The numbers of the steps that the proof needs, in the order in which they were added, if the
/// steps prove that the formula is true, or that it is false, as `sat` says.
///
/// In C: `size_t qrp_proof_core(struct qrp_proof *proof, bool sat, bool any_pivot, uint64_t *steps,
/// size_t room, struct qrp_verdict *out)`.
///
/// Returns how many they are. If `steps` has room for all of them they stand at its front, and the
/// rest stays as it was; else all of it stays. Writes to `out` what `qrp_proof_check` does; if that
/// is not a result, there are none.
#[unsafe(no_mangle)]
pub extern "C" fn qrp_proof_core(
    alloc: Global,
    proof: &mut QrpProof,
    sat: bool,
    any_pivot: bool,
    steps: &mut [u64],
    out: &mut QrpVerdict,
) -> usize
    ensures core { IfSome proof.old.held.value (λ p. IsCoreOf (record { any_pivot = any_pivot })
        p.formula p.trace.steps sat steps.old steps.new out.new result) }
    ensures nothing { IfNone proof.old.held.value
        ((out.new ≡ encoded_nothing) × (result ≡ 0)) }
    ensures kept { proof.new.held.value ≡ proof.old.held.value }
    ensures rest { drop result steps.new ≡ drop result steps.old }
{
    match proof.take(alloc) {
        Some(held) => {
            let (verdict, numbers) = core_of(alloc, &held, sat, Rules { any_pivot });
            *proof = QrpProof::of(held);
            *out = verdict;
            put_numbers(steps, &numbers)
        }
        None => {
            *out = encode_nothing();
            0
        }
    }
}

/// The result of the check, with the numbers of the steps of the core.
fn core_of(alloc: Global, proof: &Proof, sat: bool, rules: Rules) -> (QrpVerdict, Vec<u64>)
    ensures { (IsVerified rules proof.now.formula proof.now.trace.steps sat result.0
        × (core : List ℕ) × ListsCore proof.now.trace.steps core
        × (result.1.items ≡ numbers (steps_at proof.now.trace.steps core)))
        ⊎ (IsRefused rules proof.now.formula proof.now.trace.steps sat result.0
        × (result.1.items ≡ [])) }
{
    match numbers_of(alloc, proof, sat, rules) {
        Ok(numbers) => (encode_truth(sat), numbers),
        Err(fault) => (encode_fault(&Fault::Check(fault)), Vec::new(alloc)),
    }
}

/// The numbers of the steps of the core.
///
/// # Errors
/// As of the check, or `C5` if an allocation fails.
fn numbers_of(alloc: Global, proof: &Proof, sat: bool, rules: Rules) -> Result<Vec<u64>, CheckFault>
    ensures core { IfOk result (λ v. (core : List ℕ) × HasCore rules proof.now.formula
        proof.now.trace.steps (outcome_of sat) core
        × (v.items ≡ numbers (steps_at proof.now.trace.steps core))) }
    ensures truth { OnOk result (IsTrue sat ↔ IsTrueFormula proof.now.formula) }
    ensures refused { IfErr result (λ e. e ≢ C5
        → IsFirstFault rules proof.now.formula [] proof.now.trace.steps (outcome_of sat) e) }
{
    let core = proof.core(alloc, outcome_of(sat), rules)?;
    match numbers_at(alloc, &LentSteps(&proof.trace), &core) {
        Ok(numbers) => Ok(numbers),
        Err(_) => Err(CheckFault::C5),
    }
}

/// The result of the check, for a caller in C.
fn verdict_of(alloc: Global, proof: &Proof, sat: bool, rules: Rules) -> QrpVerdict
    ensures verdict { IsVerdictOf rules proof.now.formula proof.now.trace.steps sat result }
    ensures sound { AreWellFormed proof.now.formula proof.now.trace }
{
    match proof.check(alloc, outcome_of(sat), rules) {
        Ok(()) => encode_truth(sat),
        Err(fault) => encode_fault(&Fault::Check(fault)),
    }
}

/// Ends a proof, and frees what it took. The struct may be used again.
///
/// In C: `void qrp_proof_free(struct qrp_proof *proof)`.
#[unsafe(no_mangle)]
pub extern "C" fn qrp_proof_free(alloc: Global, proof: &mut QrpProof)
    ensures { proof.new.held.value ≡ None }
{
    drop(proof.take(alloc));
}
