//! The prefix and the gates of a formula, in flat buffers.

ghost use Rattle.std.specs.Prelude.{◌≡◌, ◌<◌, true, [], ◌∷◌, ◌++◌, length, slice_get, Some, OnOk, OnErr};
ghost use Rattle.std.specs.Prelude.{Err};
ghost use Rattle.std.specs.Result.{IsErrOf};
ghost use Rattle.qbf_core.specs.Blocks.{pairs, IsBound};
ghost use Rattle.qbf_gates.specs.Kept.{fits, gate_of};

use crate::kind::GateKind;
use lists::GrowingLists;
use qbf_core::{Lit, Prefix, PrefixFault, Quantifier, Var};
use std::alloc::{AllocError, Global};
use std::marker::Model;

/// The prefix of a formula and its gates in their order, and the inputs of the next gate.
///
/// Contracts see all three. A gate is added in steps: its inputs one by one, and then its name and
/// its kind.
#[derive(Drop)]
pub struct Gates {
    prefix: Prefix,
    names: Vec<(Var, GateKind)>,
    inputs: GrowingLists<Lit>,
}

impl Model for Gates {
    ghost use Rattle.std.specs.Prelude.{◌≡◌, length};
    ghost use Rattle.qbf_gates.specs.Kept.{GatesSoFar, gates_of};

    ghost Value = { GatesSoFar };

    ghost view = { λ g. record {
      blocks = g.prefix;
      gates = gates_of g.names.items g.inputs.whole;
      inputs = g.inputs.unfinished;
    } };

    ghost invariant = { λ g. length g.names.items ≡ length g.inputs.whole };
}

impl Gates {
    /// No variables and no gates. It takes no memory yet.
    pub fn new(alloc: Global) -> Gates
        ensures { result ≡ record { blocks = []; gates = []; inputs = [] } }
    {
        Gates {
            prefix: Prefix::new(alloc),
            names: Vec::new(alloc),
            inputs: GrowingLists::new(alloc),
        }
    }

    /// The prefix.
    pub fn prefix(&self) -> &Prefix
        ensures { result.now ≡ self.now.blocks }
    {
        &self.prefix
    }

    /// The number of gates.
    pub fn len(&self) -> usize
        ensures { result ≡ length self.now.gates }
    {
        self.names.len()
    }

    /// Binds a variable innermost, as `Prefix::push` does.
    ///
    /// # Errors
    /// As of `Prefix::push`. They change nothing.
    pub fn bind(&mut self, quantifier: Quantifier, var: Var) -> Result<(), PrefixFault>
        ensures bound { OnOk result
            (pairs self.new.blocks ≡ pairs self.old.blocks ++ (quantifier, var) ∷ []) }
        ensures rest { self.new ≡ record self.old { blocks = self.new.blocks } }
        ensures given { IsErrOf result PrefixFault.B1 → IsBound self.old.blocks var }
        ensures refused { IsBound self.old.blocks var → result ≡ Err PrefixFault.B1 }
        ensures err { OnErr result (self.new ≡ self.old) }
    {
        self.prefix.push(quantifier, var)
    }

    /// Begins the inputs of a gate: there are none yet.
    pub fn begin(&mut self)
        ensures { self.new ≡ record self.old { inputs = [] } }
    {
        self.inputs.begin();
    }

    /// The number of inputs so far.
    pub fn inputs_len(&self) -> usize
        ensures { result ≡ length self.now.inputs }
    {
        self.inputs.unfinished_len()
    }

    /// Adds an input of the next gate.
    ///
    /// # Errors
    /// Out of memory. Nothing is changed then.
    pub fn push_input(&mut self, lit: Lit) -> Result<(), AllocError>
        ensures pushed { OnOk result
            (self.new ≡ record self.old { inputs = self.old.inputs ++ lit ∷ [] }) }
        ensures err { OnErr result (self.new ≡ self.old) }
    {
        self.inputs.push(lit)
    }

    /// Adds the gate of this name and kind, with the inputs so far, which are as many as the kind
    /// has. Then there are none.
    ///
    /// # Errors
    /// Out of memory. Nothing is changed then.
    #[tactic(auto, using(crate::proofs::KeptGates::closed, crate::proofs::KeptGates::lengths))]
    pub fn close(&mut self, var: Var, kind: GateKind) -> Result<(), AllocError>
        requires { fits kind (length self.old.inputs) ≡ true }
        ensures closed { OnOk result (self.new ≡ record self.old {
          gates = self.old.gates ++ (var, gate_of kind self.old.inputs) ∷ [];
          inputs = [];
        }) }
        ensures err { OnErr result (self.new ≡ self.old) }
    {
        self.names.reserve(1)?;
        self.inputs.close()?;
        match self.names.push((var, kind)) {
            Ok(()) => Ok(()),
            Err(_) => unreachable!(),
        }
    }

    /// The gate at a place, counted from 0: its name, its kind and its inputs. The place is below
    /// `len`.
    #[tactic(auto, using(crate::proofs::KeptGates::gate_at))]
    pub fn gate(&self, index: usize) -> (Var, GateKind, &[Lit])
        requires { index < length self.now.gates }
        ensures { slice_get self.now.gates index ≡ Some (result.0, gate_of result.1 result.2.now) }
    {
        let (var, kind) = self.names[index];
        (var, kind, self.inputs.get(index))
    }
}
