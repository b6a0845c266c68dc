//! The tests of the rules of a step, each called on steps that follow. Other steps, and each fault,
//! are rows of `tests/check.rows`.

ghost use Rattle.std.specs.Prelude.{IfOk};
ghost use Rattle.qbf_core.specs.Blocks.{AreBound};

use qbf_core::{Lit, LitSet, Prefix, Var};
use qbf_text::SliceSource;
use qdimacs::read_formula;
use qrp_rules::{Clauses, Cubes, Rules, Side, is_reduct, reduct_fault, resolvent_fault};
use std::process::Abort;
use std::test::Fail;

/// The set of these literals, each as QDIMACS writes it.
fn set(rt: &(impl Abort + AllocGlobal), prefix: &Prefix, numbers: &[i32]) -> Result<LitSet, Fail>
    ensures { IfOk result (λ s. AreBound prefix.now s) }
{
    let mut lits = Vec::new(rt.alloc());
    for number in numbers {
        let var = Var::new(number.unsigned_abs()).expect(rt, "a variable");
        lits.push(Lit::new(var, *number < 0))?;
    }
    Ok(LitSet::from_slice(rt.alloc(), &lits, prefix)?)
}

/// Over the formula of a text the set of 1 and 2 is initial, and that of 1 is a reduct of it. By
/// either rules the empty set follows from those of 1 and -1.
fn assert_followed<S: Side>(rt: &(impl Abort + AllocGlobal), text: &str) -> Result<(), Fail> {
    let formula = read_formula(rt.alloc(), &mut SliceSource::new(text.as_bytes()))?;
    let prefix = formula.prefix();
    let whole = set(rt, prefix, &[1, 2])?;
    assert!(rt; S::initial_fault(rt.alloc(), &formula, &whole)?.is_none());
    let reduct = set(rt, prefix, &[1])?;
    assert!(rt; is_reduct::<S>(prefix, &whole, &reduct));
    assert!(rt; reduct_fault::<S>(prefix, &whole, &reduct).is_none());
    let other = set(rt, prefix, &[-1])?;
    let to = set(rt, prefix, &[])?;
    for rules in [Rules::plain(), Rules::any_pivot()] {
        assert!(rt; resolvent_fault::<S>(prefix, &reduct, &other, &to, rules).is_none());
    }
    Ok(())
}

#[test]
fn steps_that_follow(rt: HostRuntime) -> Result<(), Fail> {
    assert_followed::<Clauses>(&rt, "p cnf 2 1\ne 1 0\na 2 0\n1 2 0\n")?;
    assert_followed::<Cubes>(&rt, "p cnf 2 1\na 1 0\ne 2 0\n1 -2 0\n")
}
