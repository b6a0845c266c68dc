//! Whether a set is a reduct of the resolvent of two others.

ghost use Rattle.std.specs.Prelude.{◌≡◌, ◌↔◌, ◌⊎◌, IsTrue, None};
ghost use Rattle.qbf_core.specs.Members.{◌⊆◌};
ghost use Rattle.qbf_core.specs.Blocks.{AreBound};
ghost use Rattle.qbf_core.specs.Rules.{Clashes, resolvent};
ghost use Rattle.qbf_core.specs.Sets.{IsOrdered};
ghost use Rattle.qrp_rules.specs.Conditions.{AllHold, IsFaultOf, resolvent_conditions};
ghost use Rattle.qrp_rules.specs.Unreduced.{unreduced_conditions};
ghost use Rattle.qrp_rules.specs.Walks.{Accounts, IsClashOf};

use crate::fault::RuleFault;
use crate::resolution::{Resolution, is_pivot, reducible_in_parents};
use crate::rules::Rules;
use crate::side::Side;
use crate::walks::{is_subset_up_to, seek_literal};
use qbf_core::{Lit, LitSet, Prefix, Var};

/// The variables in which two sets clash.
enum Clash {
    Nothing,
    One(Var),
    More,
}

/// The variables in which two ordered lists clash.
fn find_clash(a: &[Lit], b: &[Lit]) -> Clash
    requires a { IsOrdered a.now }
    requires b { IsOrdered b.now }
    ensures { IsClashOf a.now b.now result }
{
    let mut rest = b;
    let mut found: Option<Var> = None;
    for lit in a {
        let (others, opposite) = seek_literal(rest, lit.negated());
        rest = others;
        if opposite {
            match found {
                Some(_) => return Clash::More,
                None => found = Some(lit.var()),
            }
        }
    }
    match found {
        Some(pivot) => Clash::One(pivot),
        None => Clash::Nothing,
    }
}

/// Whether a literal of the variable, in one of the antecedents or both, is in the resolvent.
fn is_resolved(in_a: bool, in_b: bool, var: Var, pivot: Var) -> bool
    ensures { IsTrue result ↔ ((IsTrue in_a ⊎ IsTrue in_b) × (var ≡ pivot → ⊥)) }
{
    (in_a || in_b) && var.number() != pivot.number()
}

/// Whether each literal of a step is in the resolvent.
fn is_within(to: &[Lit], a: &[Lit], b: &[Lit], pivot: Var) -> bool
    requires to { IsOrdered to.now }
    requires a { IsOrdered a.now }
    requires b { IsOrdered b.now }
    ensures { IsTrue result ↔ to.now ⊆ resolvent a.now b.now pivot }
{
    let mut left = a;
    let mut right = b;
    for lit in to {
        let (xs, in_a) = seek_literal(left, *lit);
        let (ys, in_b) = seek_literal(right, *lit);
        if !is_resolved(in_a, in_b, lit.var(), pivot) {
            return false;
        }
        left = xs;
        right = ys;
    }
    true
}

/// Whether each literal of the resolvent is in the step, or reducible there or in its antecedents.
///
/// Each antecedent is walked over once, with its own outer block, and a literal that both hold is
/// looked at in both walks.
fn is_reduced<S: Side>(prefix: &Prefix, step: Resolution, pivot: Var) -> bool
    requires ordered { IsOrdered step.a.now × IsOrdered step.b.now × IsOrdered step.to.now }
    requires clash { Clashes step.a.now step.b.now pivot }
    ensures { IsTrue result ↔ Accounts S.side prefix.now step.entry.a.now step.entry.b.now
        step.entry.to.now pivot }
{
    let Resolution { a, b, to } = step;
    let number = Some(pivot.number());
    // Most steps leave nothing out, and then no block matters.
    if is_subset_up_to(None, number, a, to) && is_subset_up_to(None, number, b, to) {
        return true;
    }
    let (in_a, in_b) = reducible_in_parents::<S>(prefix, a, b, pivot);
    is_subset_up_to(Some(in_a), number, a, to) && is_subset_up_to(Some(in_b), number, b, to)
}

/// Why a step does not follow from its antecedents by resolution, or `None` if it does: as
/// `resolvent_fault`, of literals in the order of their variables, no variable twice. It takes no
/// memory.
pub fn ordered_resolvent_fault<S: Side>(
    prefix: &Prefix,
    step: Resolution,
    rules: Rules,
) -> Option<RuleFault>
    requires a { IsOrdered step.a.now }
    requires b { IsOrdered step.b.now }
    requires to { IsOrdered step.to.now }
    ensures { IsFaultOf (resolvent_conditions rules S.side prefix.now step.entry.a.now
        step.entry.b.now step.entry.to.now) result }
{
    match find_clash(step.a, step.b) {
        Clash::Nothing => Some(RuleFault::S8),
        Clash::More => Some(RuleFault::S9),
        Clash::One(pivot) => {
            if !is_pivot::<S>(prefix, pivot, rules) {
                return Some(RuleFault::S10);
            }
            if !is_within(step.to, step.a, step.b, pivot) {
                return Some(RuleFault::S11);
            }
            if !is_reduced::<S>(prefix, step, pivot) {
                return Some(RuleFault::S12);
            }
            None
        }
    }
}

/// Why a set does not follow from two others by resolution, or `None` if it does. The sets are over
/// this prefix.
///
/// It follows if the two clash in exactly one variable, that variable has the deciding quantifier,
/// and the set is their resolvent without literals that are reducible in it, or in each of the two
/// that holds them: Q-resolution on clauses, and term resolution on cubes. In both the two may be
/// reduced before they are resolved. By `Rules::any_pivot` the variable may have either quantifier:
/// QU-resolution (Van Gelder 2012), and its dual. The results, of which the first that fits is
/// given, are `S8`, no variable clashes; `S9`, more than one does; `S10`, the pivot has the other
/// quantifier, which is never returned if the rules allow any; `S11`, a literal of the set is not
/// in the resolvent; `S12`, a literal of the resolvent is missing, and reducible neither in it nor
/// in each of the two that holds it. It takes no memory.
pub fn resolvent_fault<S: Side>(
    prefix: &Prefix,
    a: &LitSet,
    b: &LitSet,
    to: &LitSet,
    rules: Rules,
) -> Option<RuleFault>
    requires a { AreBound prefix.now a.now }
    requires b { AreBound prefix.now b.now }
    requires to { AreBound prefix.now to.now }
    ensures fault { IsFaultOf (resolvent_conditions rules S.side prefix.now a.now b.now to.now)
        result }
    ensures as_before { AllHold (unreduced_conditions rules S.side prefix.now a.now b.now to.now)
        → result ≡ None }
{
    let step = Resolution {
        a: a.as_slice(),
        b: b.as_slice(),
        to: to.as_slice(),
    };
    ordered_resolvent_fault::<S>(prefix, step, rules)
}
