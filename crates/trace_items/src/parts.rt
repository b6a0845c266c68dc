//! The parts of which a trace is made, whether it is read or pushed to.

ghost use Rattle.std.specs.Prelude.{◌≡◌, false, [], ◌∷◌, ◌++◌, OnOk, OnErr};
ghost use Rattle.trace_items.specs.StepLists.{with_lists};
ghost use Rattle.trace_items.specs.Flat.{kept_of, nothing_kept, ClosesPart, IsFlat};
ghost use Rattle.trace_items.specs.Parts.{IsComplete, Stays};
ghost use Rattle.step_index.specs.Numbers.{is_used, AreStepNumbers};

use crate::antecedents::AntecedentPair;
use crate::flat_sets::FlatSets;
use crate::item::{Header, Outcome};
use crate::step_lists::StepLists;
use lists::GrowingLists;
use qbf_core::{Lit, Quantifier, Var};
use std::alloc::{AllocError, Global};
use step_index::StepIndex;

/// A part of a trace that is complete. Its lists are in `Lists`.
#[derive(Clone, Copy)]
pub enum Part {
    /// The header.
    Header(Header),
    /// A set with this quantifier.
    Set(Quantifier),
    /// The step with this number.
    Step(u64),
    /// The result, which is the last.
    Result(Outcome),
}

/// The unfinished lists of a trace, and the numbers of its whole steps.
#[derive(Drop)]
pub struct Lists {
    /// The variables of an unfinished set.
    pub vars: Vec<Var>,
    /// The literals of an unfinished step.
    pub lits: GrowingLists<Lit>,
    /// Its antecedents.
    pub ants: AntecedentPair,
    /// The numbers of the steps that are whole.
    pub index: StepIndex,
}

/// The parts of a trace. The lists of its whole steps are kept in an `A`.
#[derive(Drop)]
pub struct Parts<A> {
    pub alloc: Global,
    pub header: Header,
    /// The sets that are whole.
    pub sets: FlatSets,
    /// The unfinished lists, and the numbers of the steps that are whole.
    pub lists: Lists,
    /// The lists of the steps that are whole.
    pub steps: A,
}

impl<A: StepLists> Parts<A> {
    /// Nothing yet. It takes no memory.
    pub fn new(alloc: Global) -> Parts<A>
        ensures sound { IsFlat (kept_of A.lists result) }
        ensures kept { kept_of A.lists result ≡ nothing_kept }
    {
        Parts {
            alloc,
            header: Header { vars: 0, steps: 0 },
            sets: FlatSets::new(alloc),
            lists: Lists {
                vars: Vec::new(alloc),
                lits: GrowingLists::new(alloc),
                ants: AntecedentPair::none(),
                index: StepIndex::new(alloc),
            },
            steps: A::of_no_steps(alloc),
        }
    }
}

/// Puts the unfinished step after the others.
///
/// # Errors
/// Out of memory. All that is whole is unchanged then.
#[inline(always)]
fn close_step<A: StepLists>(lists: &mut Lists, steps: &mut A, number: u64) -> Result<(), AllocError>
    requires { is_used number lists.old.index ≡ false }
    ensures closed { OnOk result
        (lists.new ≡ record lists.old { index = lists.old.index ++ number ∷ [] }) }
    ensures added { OnOk result (A.lists steps.new
        ≡ with_lists (A.lists steps.old) lists.old.lits.unfinished lists.old.ants) }
    ensures sound { OnOk result (AreStepNumbers lists.new.index) }
    ensures err { OnErr result (Stays lists.old lists.new) }
    ensures kept { OnErr result (A.lists steps.new ≡ A.lists steps.old) }
{
    steps.add(lists.lits.unfinished(), lists.ants)?;
    match lists.index.push(number) {
        Ok(()) => Ok(()),
        Err(refused) => {
            steps.remove_last();
            Err(refused)
        }
    }
}

/// Of a set with more variables than this, the list in which it was read is freed.
const LONG: usize = 4096;

/// Frees the list in which a set was read, if it is long.
fn free_long(vars: &mut Vec<Var>, alloc: Global) {
    if vars.len() > LONG {
        *vars = Vec::new(alloc);
    }
}

/// Puts a part that is complete after the others. Nothing is kept of a result.
///
/// # Errors
/// Out of memory. All that is whole is unchanged then.
#[inline(always)]
pub fn close<A: StepLists>(parts: &mut Parts<A>, part: Part) -> Result<(), AllocError>
    requires made { IsFlat (kept_of A.lists parts.old) }
    requires complete { IsComplete part parts.old.lists }
    ensures closed { OnOk result (ClosesPart A.lists parts.old parts.new part) }
    ensures err { OnErr result (kept_of A.lists parts.new ≡ kept_of A.lists parts.old) }
{
    match part {
        Part::Header(header) => {
            parts.header = header;
            Ok(())
        }
        Part::Set(quantifier) => {
            parts.sets.push(quantifier, &parts.lists.vars)?;
            free_long(&mut parts.lists.vars, parts.alloc);
            Ok(())
        }
        Part::Step(number) => {
            close_step(&mut parts.lists, &mut parts.steps, number)?;
            Ok(())
        }
        Part::Result(_) => Ok(()),
    }
}
