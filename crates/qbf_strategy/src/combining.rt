//! Gates that combine wires.

ghost use Rattle.std.specs.Prelude.{◌≡◌, ◌≤◌, ◌<◌, ◌+◌, IfOk, length};
ghost use Rattle.std.specs.Result.{IsErrOf};
ghost use Rattle.aiger.specs.Building.{next_of};
ghost use Rattle.qbf_strategy.specs.Assembling.{AllBelow};
ghost use Rattle.qbf_strategy.specs.Conditions.{IsConjunction, IsEither};

use aiger::{Builder, GateFault, Wire};

/// The wire of the conjunction of wires.
pub fn conjunction(gates: &mut Builder, wires: &[Wire]) -> Result<Wire, GateFault>
    requires { AllBelow (next_of gates.old) wires.now }
    ensures value { IfOk result (IsConjunction gates.old gates.new wires.now) }
    ensures long { IsErrOf result GateFault.TooLong
        → 2147483648 ≤ next_of gates.old + length wires.now }
{
    let mut all = gates.constant(true);
    for wire in wires {
        all = gates.and(all, *wire)?;
    }
    Ok(all)
}

/// The wire that has this value if a condition holds, and else that of another wire.
pub fn either(
    gates: &mut Builder,
    condition: Wire,
    value: bool,
    after: Wire,
) -> Result<Wire, GateFault>
    requires condition { condition.var < next_of gates.old }
    requires after { after.var < next_of gates.old }
    ensures value { IfOk result (IsEither gates.old gates.new condition value after) }
    ensures long { IsErrOf result GateFault.TooLong → 2147483648 ≤ next_of gates.old }
{
    let wire = gates.and(condition.opposite(), after.turned(value))?;
    Ok(wire.turned(value))
}
