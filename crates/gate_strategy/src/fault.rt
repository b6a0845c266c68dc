//! Why there is no strategy.

ghost use Rattle.std.specs.Prelude.{◌≡◌};
ghost use Rattle.gate_verify.specs.declared.fault.Unverified.TheVariants.{Question};
ghost use Rattle.gate_strategy.specs.Strategies.{fault_of};
ghost use Rattle.gate_strategy.specs.declared.fault.GateStrategyFault.TheVariants.{Check, NoMemory};

use gate_verify::Unverified;
use qcir::QuestionFault;
use qrp_winner::StrategyFault;
use std::alloc::AllocError;

/// Why there is no strategy for a formula of gates.
#[derive(Clone, Copy, Debug, PartialEq, Eq)]
pub enum GateStrategyFault {
    /// Nothing was verified.
    Check(Unverified),
    /// An allocation failed once the trace was verified.
    NoMemory,
    /// The trace was verified, and the circuit of the clauses was not made: AIGER has no numbers
    /// for so many gates.
    NoCircuit,
}

impl From<(QuestionFault, u64)> for GateStrategyFault {
    ghost from_gives = { λ found fault. fault ≡ Check (Question found.0 found.1) };

    fn from(found: (QuestionFault, u64)) -> GateStrategyFault {
        GateStrategyFault::Check(Unverified::Question(found.0, found.1))
    }
}

impl From<Unverified> for GateStrategyFault {
    ghost from_gives = { λ found fault. fault ≡ Check found };

    fn from(found: Unverified) -> GateStrategyFault {
        GateStrategyFault::Check(found)
    }
}

impl From<StrategyFault> for GateStrategyFault {
    ghost from_gives = { λ found fault. fault ≡ fault_of found };

    fn from(found: StrategyFault) -> GateStrategyFault {
        match found {
            StrategyFault::Check(fault) => GateStrategyFault::Check(Unverified::Proof(fault)),
            StrategyFault::NoMemory => GateStrategyFault::NoMemory,
            StrategyFault::NoCircuit => GateStrategyFault::NoCircuit,
        }
    }
}

impl From<AllocError> for GateStrategyFault {
    ghost from_gives = { λ _ fault. fault ≡ NoMemory };

    fn from(_refused: AllocError) -> GateStrategyFault {
        GateStrategyFault::NoMemory
    }
}
