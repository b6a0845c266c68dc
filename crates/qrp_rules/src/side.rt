//! The two sides of the calculus: clauses, which refute, and cubes, which show truth.

ghost use Rattle.std.specs.Prelude.{◌≡◌, ◌≢◌, [], ◌∷◌, IfOk, IsOk};
ghost use Rattle.qbf_core.specs.declared.quantifier.Quantifier.{Quantifier};
ghost use Rattle.qbf_core.specs.declared.quantifier.Quantifier.TheVariants.{All, Exists};
ghost use Rattle.qbf_core.specs.Blocks.{AreBound};
ghost use Rattle.qbf_core.specs.Rules.{Side, Clauses, Cubes, reduced_quantifier};
ghost use Rattle.qbf_core.specs.Rules.{deciding_quantifier};
ghost use Rattle.qrp_rules.specs.Conditions.{IsFaultOf, initial_condition};

use crate::fault::RuleFault;
use crate::initial::{initial_clause_fault, initial_cube_fault};
use qbf_core::{Formula, LitSet, Quantifier};
use std::alloc::{AllocError, Global};

/// The kind of the steps of a proof: clauses, by Q-resolution (Kleine Büning, Karpinski, Flögel
/// 1995), or cubes, by term resolution (Giunchiglia, Narizzano, Tacchella 2006).
pub trait Side {
    /// The side in the definitions.
    ghost side: { Side };

    ghost REDUCED: { Quantifier };

    ghost DECIDING: { Quantifier };

    /// The quantifier of the literals that reduction takes out.
    const REDUCED: Quantifier;

    /// The quantifier of a pivot, and of the literals that keep others from being taken out. It is
    /// not `REDUCED`.
    const DECIDING: Quantifier;

    /// Why a set over the prefix of the formula is not an initial step, or `None` if it is one.
    ///
    /// A clause is initial if it is a reduct of a clean clause of the formula, and its fault is
    /// `S4`. A cube is initial if each clause of the formula holds a variable with both signs or
    /// shares a literal with the cube, and its fault is `S5`.
    ///
    /// # Errors
    /// If an allocation fails; never on cubes, which need no memory.
    fn initial_fault(
        alloc: Global,
        formula: &Formula,
        set: &LitSet,
    ) -> Result<Option<RuleFault>, AllocError>
        requires { AreBound formula.now.blocks set.now }
        ensures { IfOk result
            (λ fault. IsFaultOf (initial_condition side formula.now set.now ∷ []) fault) };

    ghost reduces: { REDUCED ≡ reduced_quantifier side };

    ghost decides: { DECIDING ≡ deciding_quantifier side };

    ghost differ: { REDUCED ≢ DECIDING };
}

/// The side of `r unsat`: clauses, which refute the formula.
pub struct Clauses;

impl Side for Clauses {
    ghost side = { Clauses };

    ghost REDUCED = { All };

    ghost DECIDING = { Exists };

    const REDUCED: Quantifier = Quantifier::All;

    const DECIDING: Quantifier = Quantifier::Exists;

    fn initial_fault(
        alloc: Global,
        formula: &Formula,
        set: &LitSet,
    ) -> Result<Option<RuleFault>, AllocError> {
        initial_clause_fault(alloc, formula, set.as_slice())
    }

    ghost reduces = { Prim.cc };

    ghost decides = { Prim.cc };

    ghost differ = { λ e. Prim.cc };
}

/// The side of `r sat`: cubes, which show that the formula is true.
pub struct Cubes;

impl Side for Cubes {
    ghost side = { Cubes };

    ghost REDUCED = { Exists };

    ghost DECIDING = { All };

    const REDUCED: Quantifier = Quantifier::Exists;

    const DECIDING: Quantifier = Quantifier::All;

    fn initial_fault(
        alloc: Global,
        formula: &Formula,
        set: &LitSet,
    ) -> Result<Option<RuleFault>, AllocError>
        ensures answer { IfOk result (λ fault.
            IsFaultOf (initial_condition Rattle.qbf_core.specs.Rules.Cubes formula.now set.now ∷ [])
            fault) }
        ensures always { IsOk result }
    {
        Ok(initial_cube_fault(formula, set.as_slice()))
    }

    ghost reduces = { Prim.cc };

    ghost decides = { Prim.cc };

    ghost differ = { λ e. Prim.cc };
}
