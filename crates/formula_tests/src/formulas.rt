//! Values, prefixes, formulas, sets and lists through the public calls of `qbf_core`: each call
//! once, and calls that are made again after a refusal.

ghost use Rattle.std.specs.Prelude.{◌≡◌, ◌<◌, ◌∷◌, [], ◌++◌, length, IfOk};
ghost use Rattle.qbf_core.specs.Blocks.{AreBound, pairs};
ghost use Rattle.qbf_core.specs.declared.quantifier.Quantifier.TheVariants.{All};

use lists::GrowingLists;
use qbf_core::{Formula, Lit, LitSet, Prefix, PrefixFault, Quantifier, Var, is_member};
use std::alloc::Global;
use std::process::Abort;
use std::test::Fail;

/// The variable of a number in range.
fn variable(rt: &impl Abort, number: u32) -> Var
    ensures { result ≡ number }
{
    Var::new(number).expect(rt, "a variable")
}

#[test]
fn variables_and_literals(rt: HostRuntime) {
    let seven = variable(&rt, 7);
    assert_eq!(rt; seven.number(), 7);
    assert!(rt; Var::up_to(7, 7) == Some(seven));
    let lit = Lit::new(seven, true);
    assert!(rt; lit.var() == seven);
    assert!(rt; lit.is_negative());
    assert!(rt; lit.negated() < lit);
    assert_eq!(rt; Quantifier::All.letter(), b'a');
}

/// The prefix of one variable, at the second try if an allocation fails.
fn one_variable(alloc: Global, quantifier: Quantifier, var: Var) -> Result<Prefix, Fail>
    ensures { IfOk result (λ prefix. pairs prefix ≡ (quantifier, var) ∷ []) }
{
    let mut prefix = Prefix::new(alloc);
    match prefix.push(quantifier, var) {
        Ok(()) => Ok(prefix),
        Err(_) => {
            prefix.push(quantifier, var)?;
            Ok(prefix)
        }
    }
}

#[test]
fn prefixes(rt: HostRuntime) -> Result<(), Fail> {
    let seven = variable(&rt, 7);
    let prefix = one_variable(rt.alloc(), Quantifier::All, seven)?;
    assert_eq!(rt; prefix.len(), 1);
    assert_eq!(rt; prefix.blocks(), 1);
    assert!(rt; prefix.pair(0) == (Quantifier::All, seven));
    assert!(rt; prefix.is_bound(seven));
    assert!(rt; prefix.quantifier(seven) == Some(Quantifier::All));
    assert!(rt; prefix.block(seven) == Some(0));
    assert_eq!(rt; prefix.reach(Quantifier::All, seven), 1);
    Ok(())
}

#[test]
fn sets(rt: HostRuntime) -> Result<(), Fail> {
    let seven = variable(&rt, 7);
    let lit = Lit::new(seven, true);
    let prefix = one_variable(rt.alloc(), Quantifier::All, seven)?;
    let set = LitSet::from_slice(rt.alloc(), &[lit, lit], &prefix)?;
    assert!(rt; set.as_slice() == [lit].as_slice());
    assert!(rt; set.contains(lit));
    assert!(rt; is_member(set.as_slice(), lit));
    Ok(())
}

/// The list of one literal. Its negation is in a list that is only begun.
fn one_whole_list(alloc: Global, lit: Lit) -> Result<GrowingLists<Lit>, Fail>
    ensures { IfOk result (λ lists. lists.whole ≡ (lit ∷ []) ∷ []) }
{
    let mut clauses = GrowingLists::new(alloc);
    clauses.push(lit)?;
    clauses.close()?;
    clauses.push(lit.negated())?;
    Ok(clauses)
}

#[test]
fn lists(rt: HostRuntime) -> Result<(), Fail> {
    let lit = Lit::new(variable(&rt, 1), false);
    let mut lists = one_whole_list(rt.alloc(), lit)?;
    assert_eq!(rt; lists.whole_len(), 1);
    assert!(rt; lists.get(0) == [lit].as_slice());
    assert_eq!(rt; lists.unfinished_len(), 1);
    assert!(rt; lists.unfinished() == [lit.negated()].as_slice());
    lists.begin();
    assert!(rt; lists.unfinished().is_empty());
    lists.pop();
    assert_eq!(rt; lists.whole_len(), 0);
    Ok(())
}

#[test]
fn formulas_from_parts(rt: HostRuntime) -> Result<(), Fail> {
    let one = variable(&rt, 1);
    let lit = Lit::new(one, false);
    let prefix = one_variable(rt.alloc(), Quantifier::Exists, one)?;
    assert_eq!(rt; prefix.len(), 1);
    let formula = Formula::from_parts(5, prefix, one_whole_list(rt.alloc(), lit)?);
    assert_eq!(rt; formula.clauses(), 1);
    assert!(rt; formula.clause(0) == [lit].as_slice());
    Ok(())
}

// ---- calls that are tried again if an allocation fails
//
// With memory these tests try nothing twice. tests/library/test-refusals makes each of their
// allocations fail in turn.

/// Quantifiers that alternate, so that each place is its own block.
fn quantifier_at(place: usize) -> Quantifier {
    if place % 2 == 0 {
        Quantifier::Exists
    } else {
        Quantifier::All
    }
}

/// Each variable is found at its place, and not bound again.
fn assert_each_found(rt: &impl Abort, prefix: &mut Prefix, numbers: &[u32]) {
    for (place, number) in numbers.iter().enumerate() {
        let var = variable(rt, *number);
        assert!(rt; prefix.is_bound(var));
        assert!(rt; prefix.quantifier(var) == Some(quantifier_at(place)));
        assert!(rt; prefix.block(var) == Some(place));
        assert!(rt; prefix.push(quantifier_at(place), var) == Err(PrefixFault::B1));
    }
}

/// Binds a variable. If an allocation fails, the prefix has as many variables as before, and the
/// second try binds it.
fn bind_again(rt: &impl Abort, prefix: &mut Prefix, quantifier: Quantifier, var: Var) {
    let places = prefix.len();
    if prefix.push(quantifier, var).is_err() {
        assert_eq!(rt; prefix.len(), places);
        assert!(rt; !prefix.is_bound(var));
        assert!(rt; prefix.push(quantifier, var).is_ok());
    }
}

#[test]
fn binds_again_after_a_refusal(rt: HostRuntime) {
    let numbers = [1, 2147483647, 5, 4, 3, 2, 9, 1000000, 8, 7, 6];
    let mut prefix = Prefix::new(rt.alloc());
    for (place, number) in numbers.iter().enumerate() {
        bind_again(
            &rt,
            &mut prefix,
            quantifier_at(place),
            variable(&rt, *number),
        );
    }
    assert_each_found(&rt, &mut prefix, &numbers);
    assert_eq!(rt; prefix.len(), 11);
}

/// The literals as a clause, at the second try if an allocation fails.
fn clause_of(alloc: Global, lits: &[Lit]) -> Result<Vec<Lit>, Fail>
    ensures { IfOk result (λ clause. clause.items ≡ lits.now) }
{
    match Vec::from_slice(alloc, lits) {
        Ok(clause) => Ok(clause),
        Err(_) => Ok(Vec::from_slice(alloc, lits)?),
    }
}

/// Adds a clause. If an allocation fails, the formula has as many clauses as before, and the second
/// try adds it.
fn push_again(rt: &impl Abort, formula: &mut Formula, clause: Vec<Lit>)
    requires bound { AreBound formula.old.blocks clause.items }
    requires few { length formula.old.clauses < 2147483647 }
    ensures { formula.new
        ≡ record formula.old { clauses = formula.old.clauses ++ clause.items ∷ [] } }
{
    let clauses = formula.clauses();
    if let Err(back) = formula.push_clause(clause) {
        assert_eq!(rt; formula.clauses(), clauses);
        assert!(rt; formula.push_clause(back).is_ok());
    }
}

/// Adds three clauses to a formula of one universal variable, each at the second try if an
/// allocation fails.
fn add_three_again(
    rt: &impl Abort,
    alloc: Global,
    formula: &mut Formula,
    one: Var,
) -> Result<(), Fail>
    requires one { one ≡ 1 }
    requires bound { pairs formula.old.blocks ≡ (All, one) ∷ [] }
    requires empty { formula.old.clauses ≡ [] }
{
    let (positive, negative) = (Lit::new(one, false), Lit::new(one, true));
    push_again(
        rt,
        formula,
        clause_of(alloc, &[positive, negative, positive])?,
    );
    push_again(rt, formula, clause_of(alloc, &[])?);
    push_again(rt, formula, clause_of(alloc, &[negative; 5])?);
    Ok(())
}

/// A formula of one universal variable with three clauses, which are added at the second try if
/// an allocation fails. Its header allows five variables.
fn three_clauses(rt: &impl Abort, alloc: Global) -> Result<Formula, Fail> {
    let one = variable(rt, 1);
    let mut formula = Formula::new(alloc, 5, one_variable(alloc, Quantifier::All, one)?);
    add_three_again(rt, alloc, &mut formula, one)?;
    Ok(formula)
}

/// The formula has the clauses that were added.
fn assert_three_clauses(rt: &impl Abort, formula: &Formula, positive: Lit, negative: Lit) {
    assert_eq!(rt; formula.max_var(), 5);
    assert_eq!(rt; formula.prefix().len(), 1);
    assert_eq!(rt; formula.clauses(), 3);
    assert!(rt; formula.clause(0) == [positive, negative, positive].as_slice());
    assert!(rt; formula.clause(1).is_empty());
    assert!(rt; formula.clause(2) == [negative; 5].as_slice());
}

#[test]
fn adds_clauses_again_after_a_refusal(rt: HostRuntime) -> Result<(), Fail> {
    let one = variable(&rt, 1);
    let (positive, negative) = (Lit::new(one, false), Lit::new(one, true));
    let formula = three_clauses(&rt, rt.alloc())?;
    assert_three_clauses(&rt, &formula, positive, negative);
    Ok(())
}
