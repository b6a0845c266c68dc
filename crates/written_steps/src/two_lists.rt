//! Two lists of literals that are walked side by side with a third one, in whatever order all three
//! are. The walk finds the rests of the two, and a variable in which they clash.

ghost use Rattle.std.specs.Prelude.{◌≡◌, ◌≤◌, ◌<◌, ◌+◌, ◌^◌, ◌⊎◌, ◌↔◌, IsTrue, IfSome};
ghost use Rattle.qbf_core.specs.Literal.{Literal, negated};
ghost use Rattle.qbf_core.specs.Members.{◌∈◌};
ghost use Rattle.written_steps.specs.TwoLists.{IsMergeBut, IsMerged, IsNext, IsResolvedBut};

use qbf_core::Lit;
use qrp_rules::is_among;

/// The position after the literal if a list has it at this position, else the same position.
#[inline(always)]
pub(crate) fn advance_if_equal(lits: &[Lit], position: usize, lit: Lit) -> usize
    ensures { IsNext lits.now position lit result }
{
    match lits.get(position) {
        Some(other) if *other == lit => position + 1,
        _ => position,
    }
}

/// Whether neither of two positions was left. Their sums say so, with one branch in place of two.
#[inline(always)]
fn neither_moved(in_a: usize, next_a: usize, in_b: usize, next_b: usize) -> bool
    requires a { in_a ≤ next_a }
    requires b { in_b ≤ next_b }
    requires sum { next_a + next_b < 2 ^ 64 }
    ensures { IsTrue result ↔ ((next_a ≡ in_a) × (next_b ≡ in_b)) }
{
    next_a + next_b == in_a + in_b
}

/// How far three lists were walked over.
#[derive(Clone, Copy)]
struct Cursors {
    a: usize,
    b: usize,
    to: usize,
}

/// Walks over a list as far as each literal is the next of one of two others or of both.
fn merge_prefix(a: &[Lit], b: &[Lit], to: &[Lit]) -> Cursors
    ensures { IsMerged a.now b.now to.now result }
{
    let mut at = Cursors { a: 0, b: 0, to: 0 };
    for lit in to {
        let next = Cursors {
            a: advance_if_equal(a, at.a, *lit),
            b: advance_if_equal(b, at.b, *lit),
            to: at.to + 1,
        };
        if neither_moved(at.a, next.a, at.b, next.b) {
            return at;
        }
        at = next;
    }
    at
}

/// A literal of a list whose negation is in another. Only the first ones are looked for.
#[tactic(auto, using(qbf_core::proofs::Members::take_within, qbf_core::proofs::Members::in_at))]
fn find_clashing(a: &[Lit], b: &[Lit]) -> Option<Lit>
    ensures { IfSome result (λ x. (x ∈ a.now) × (negated x ∈ b.now)) }
{
    for lit in &a[..a.len().min(32)] {
        if is_among(b, lit.negated()) {
            return Some(*lit);
        }
    }
    None
}

/// The rests of two lists that are walked beside a third, if the walk reaches the end of the third.
#[tactic(auto, using(crate::proofs::WrittenSteps::merge_but, std::proofs::lemmas::List::take_rest))]
fn rests_of_merge<'a>(a: &'a [Lit], b: &'a [Lit], to: &[Lit]) -> Option<(&'a [Lit], &'a [Lit])>
    ensures { IfSome result (λ rests. IsMergeBut a.now b.now to.now rests.0.now rests.1.now) }
{
    let cursors = merge_prefix(a, b, to);
    if cursors.to != to.len() {
        return None;
    }
    Some((&a[cursors.a..], &b[cursors.b..]))
}

/// A literal of one of two lists whose negation is in the other, and the rests of both lists after
/// the literals that a third list has from them.
#[derive(Clone, Copy)]
pub(crate) struct Rests<'a> {
    pub pivot: Lit,
    pub a: &'a [Lit],
    pub b: &'a [Lit],
}

/// The rests of two lists of which a third has literals in their order.
///
/// `None` if that is not seen. If the third one has just the literals that are not the pivot,
/// nothing is left. Each literal is looked at once.
pub(crate) fn find_rests<'a>(a: &'a [Lit], b: &'a [Lit], to: &[Lit]) -> Option<Rests<'a>>
    ensures { IfSome result (λ rests. IsResolvedBut a.now b.now to.now rests.a.now rests.b.now
        rests.pivot) }
{
    let before = merge_prefix(a, b, to);
    let pivot = *a.get(before.a)?;
    let opposite = *b.get(before.b)?;
    let rest = &to[before.to..];
    if opposite == pivot.negated() {
        let (a, b) = rests_of_merge(&a[before.a + 1..], &b[before.b + 1..], rest)?;
        return Some(Rests { pivot, a, b });
    }
    if before.to != to.len() {
        return None;
    }
    let (a, b) = (&a[before.a..], &b[before.b..]);
    let pivot = find_clashing(a, b)?;
    Some(Rests { pivot, a, b })
}
