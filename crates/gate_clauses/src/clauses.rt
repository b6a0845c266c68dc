//! The clauses of gates.

ghost use Rattle.std.specs.Prelude.{◌≡◌, [], ◌∷◌, ◌++◌, map, OnOk};
ghost use Rattle.qbf_core.specs.Literal.{positive, negative, negated};
ghost use Rattle.qbf_gates.specs.Gates.{And, Or, Xor, Ite};
ghost use Rattle.qbf_gates.specs.Kept.{gate_of};
ghost use Rattle.gate_clauses.specs.Encoding.{clauses_of};

use lists::GrowingLists;
use qbf_core::{Lit, Var};
use qbf_gates::GateKind;
use std::alloc::AllocError;

/// A clause of one literal.
pub(crate) fn put_one(clauses: &mut GrowingLists<Lit>, one: Lit) -> Result<(), AllocError>
    ensures { OnOk result (clauses.new.whole ≡ clauses.old.whole ++ (one ∷ []) ∷ []) }
{
    clauses.begin();
    clauses.push(one)?;
    clauses.close()
}

/// A clause of two literals.
pub(crate) fn put_two(
    clauses: &mut GrowingLists<Lit>,
    one: Lit,
    other: Lit,
) -> Result<(), AllocError>
    ensures { OnOk result (clauses.new.whole ≡ clauses.old.whole ++ (one ∷ other ∷ []) ∷ []) }
{
    clauses.begin();
    clauses.push(one)?;
    clauses.push(other)?;
    clauses.close()
}

/// A clause of three literals.
fn put_three(
    clauses: &mut GrowingLists<Lit>,
    one: Lit,
    other: Lit,
    last: Lit,
) -> Result<(), AllocError>
    ensures { OnOk result
        (clauses.new.whole ≡ clauses.old.whole ++ (one ∷ other ∷ last ∷ []) ∷ []) }
{
    clauses.begin();
    clauses.push(one)?;
    clauses.push(other)?;
    clauses.push(last)?;
    clauses.close()
}

/// A literal, and others after it, as one clause.
fn put_wide(clauses: &mut GrowingLists<Lit>, one: Lit, others: &[Lit]) -> Result<(), AllocError>
    ensures { OnOk result (clauses.new.whole ≡ clauses.old.whole ++ (one ∷ others.now) ∷ []) }
{
    clauses.begin();
    clauses.push(one)?;
    clauses.extend(others)?;
    clauses.close()
}

/// The negations of literals, after those of the unfinished clause.
fn extend_negated(clauses: &mut GrowingLists<Lit>, others: &[Lit]) -> Result<(), AllocError>
    ensures whole { OnOk result (clauses.new.whole ≡ clauses.old.whole) }
    ensures unfinished { OnOk result
        (clauses.new.unfinished ≡ clauses.old.unfinished ++ map negated others.now) }
{
    for lit in others {
        clauses.push(lit.negated())?;
    }
    Ok(())
}

/// A literal, and the negations of others after it, as one clause.
fn put_wide_negated(
    clauses: &mut GrowingLists<Lit>,
    one: Lit,
    others: &[Lit],
) -> Result<(), AllocError>
    ensures { OnOk result
        (clauses.new.whole ≡ clauses.old.whole ++ (one ∷ map negated others.now) ∷ []) }
{
    clauses.begin();
    clauses.push(one)?;
    extend_negated(clauses, others)?;
    clauses.close()
}

/// A clause for each of these literals: a literal, and the one of them.
fn put_each(clauses: &mut GrowingLists<Lit>, one: Lit, others: &[Lit]) -> Result<(), AllocError>
    ensures { OnOk result (clauses.new.whole ≡ clauses.old.whole
        ++ map (λ l. one ∷ l ∷ []) others.now) }
{
    for lit in others {
        put_two(clauses, one, *lit)?;
    }
    Ok(())
}

/// A clause for each of these literals: a literal, and the negation of the one of them.
fn put_each_negated(
    clauses: &mut GrowingLists<Lit>,
    one: Lit,
    others: &[Lit],
) -> Result<(), AllocError>
    ensures { OnOk result (clauses.new.whole ≡ clauses.old.whole
        ++ map (λ l. one ∷ negated l ∷ []) others.now) }
{
    for lit in others {
        put_two(clauses, one, lit.negated())?;
    }
    Ok(())
}

/// The clauses of a conjunction.
fn put_and(clauses: &mut GrowingLists<Lit>, var: Var, inputs: &[Lit]) -> Result<(), AllocError>
    ensures { OnOk result (clauses.new.whole ≡ clauses.old.whole ++ clauses_of var (And inputs.now)) }
{
    put_wide_negated(clauses, Lit::new(var, false), inputs)?;
    put_each(clauses, Lit::new(var, true), inputs)
}

/// The clauses of a disjunction.
fn put_or(clauses: &mut GrowingLists<Lit>, var: Var, inputs: &[Lit]) -> Result<(), AllocError>
    ensures { OnOk result (clauses.new.whole ≡ clauses.old.whole ++ clauses_of var (Or inputs.now)) }
{
    put_wide(clauses, Lit::new(var, true), inputs)?;
    put_each_negated(clauses, Lit::new(var, false), inputs)
}

/// The clauses of an exclusive disjunction.
fn put_xor(clauses: &mut GrowingLists<Lit>, var: Var, a: Lit, b: Lit) -> Result<(), AllocError>
    ensures { OnOk result (clauses.new.whole ≡ clauses.old.whole ++ clauses_of var (Xor a b)) }
{
    let on = Lit::new(var, false);
    let off = Lit::new(var, true);
    put_three(clauses, off, a, b)?;
    put_three(clauses, off, a.negated(), b.negated())?;
    put_three(clauses, on, a.negated(), b)?;
    put_three(clauses, on, a, b.negated())
}

/// The inputs of a choice.
#[derive(Clone, Copy)]
struct Choice {
    condition: Lit,
    /// Its value if the condition is true.
    if_true: Lit,
    /// Its value if the condition is false.
    if_false: Lit,
}

/// The clauses of a choice.
fn put_ite(clauses: &mut GrowingLists<Lit>, var: Var, choice: Choice) -> Result<(), AllocError>
    ensures { OnOk result (clauses.new.whole ≡ clauses.old.whole
        ++ clauses_of var (Ite choice.condition choice.if_true choice.if_false)) }
{
    let Choice {
        condition: a,
        if_true: b,
        if_false: c,
    } = choice;
    let on = Lit::new(var, false);
    let off = Lit::new(var, true);
    put_three(clauses, off, a.negated(), b)?;
    put_three(clauses, off, a, c)?;
    put_three(clauses, on, a.negated(), b.negated())?;
    put_three(clauses, on, a, c.negated())?;
    put_three(clauses, off, b, c)?;
    put_three(clauses, on, b.negated(), c.negated())
}

/// The clauses of a gate of this name and kind with these inputs.
pub(crate) fn put_gate_clauses(
    clauses: &mut GrowingLists<Lit>,
    var: Var,
    kind: GateKind,
    inputs: &[Lit],
) -> Result<(), AllocError>
    ensures { OnOk result (clauses.new.whole
        ≡ clauses.old.whole ++ clauses_of var (gate_of kind inputs.now)) }
{
    match kind {
        GateKind::Conjunction => put_and(clauses, var, inputs),
        GateKind::Disjunction => put_or(clauses, var, inputs),
        GateKind::Difference => match inputs {
            [a, b] => put_xor(clauses, var, *a, *b),
            _ => put_and(clauses, var, inputs),
        },
        GateKind::Choice => match inputs {
            [a, b, c] => {
                let choice = Choice {
                    condition: *a,
                    if_true: *b,
                    if_false: *c,
                };
                put_ite(clauses, var, choice)
            }
            _ => put_and(clauses, var, inputs),
        },
    }
}
