//! The clauses of a formula, found by their literals as they are written, whatever their order.

ghost use Rattle.std.specs.Prelude.{IfNone, IfOk, IfSome, IsTrue};
ghost use Rattle.written_steps.specs.Accepted.{IsFit};
ghost use Rattle.written_steps.specs.Initial.{IsAcceptedAt, IsAcceptedIf};
ghost use Rattle.qrp_rules.specs.Reducts.{HasNoReduct, IsReductAt};

use crate::seen::{SeenLits, code, surely_clean};
use crate::written_reduct::accepts_reduct;
use qbf_core::{Formula, Lit, LitSet, Prefix, Quantifier, SetFault};
use qrp_rules::{Clauses, Reducible, is_among, is_ordered, reduced_clause, reducible_in};
use std::alloc::{AllocError, Global};

/// The word that a literal adds to a sum: its number, multiplied by two odd constants.
fn mixed(lit: Lit) -> u64 {
    let word = (code(lit) as u64).wrapping_mul(0x9E3779B97F4A7C15);
    (word ^ (word >> 29)).wrapping_mul(0xBF58476D1CE4E5B9)
}

/// The kind of a sum: which literals of a list it is of.
#[derive(Clone, Copy)]
enum Kind {
    /// All of them.
    All,
    /// Those that universal reduction cannot take out. A reduct has the same ones.
    Kept,
}

/// The sum of the literals of a list, each once. Their order does not matter. If the reducible ones
/// are named, they are left out.
///
/// # Errors
/// If an allocation fails.
#[inline(always)]
fn sum_but(
    seen: &mut SeenLits,
    reducible: Option<Reducible>,
    lits: &[Lit],
) -> Result<u64, AllocError> {
    let ordered = is_ordered(lits);
    let mut sum: u64 = 0;
    seen.clear();
    for lit in lits {
        let counts = match reducible {
            Some(reducible) => !reducible.has(lit.var()),
            None => true,
        };
        if counts && (ordered || seen.is_new(*lit)?) {
            sum = sum.wrapping_add(mixed(*lit));
        }
    }
    Ok(sum)
}

/// The sum of this kind of a list.
///
/// # Errors
/// If an allocation fails.
fn sum_of(
    kind: Kind,
    seen: &mut SeenLits,
    prefix: &Prefix,
    lits: &[Lit],
) -> Result<u64, AllocError> {
    match kind {
        Kind::All => sum_but(seen, None, lits),
        Kind::Kept => sum_but(
            seen,
            Some(reducible_in(prefix, Quantifier::All, lits)),
            lits,
        ),
    }
}

/// Accepts literals that are, as they are written, a reduct of the clause at a position, if there
/// is one and it is clean.
fn accepts_at(
    seen: &mut SeenLits,
    formula: &Formula,
    position: usize,
    lits: &[Lit],
) -> Result<bool, AllocError>
    ensures { IfOk result (λ t. IsTrue t → IsAcceptedAt formula.now lits.now position) }
{
    if position >= formula.clauses() {
        return Ok(false);
    }
    let prefix = formula.prefix();
    let clause = formula.clause(position);
    // Most other clauses miss the first literal already.
    if let Some(lit) = lits.first() {
        if !is_among(clause, *lit) {
            return Ok(false);
        }
    }
    if !surely_clean(seen, prefix, clause)? {
        return Ok(false);
    }
    accepts_reduct::<Clauses>(seen, prefix, clause, lits)
}

/// At most this many clauses from which a reduct may come are looked at, before those that have
/// just its literals.
const FEW: usize = 8;

/// The end of a chain.
const END: u32 = u32::MAX;

/// The entry of a chain at a position.
#[derive(Clone, Copy)]
struct Link {
    /// The position after it, or `END`.
    next: u32,
    /// The lower half of its sum. Most other sums in the chain have another one.
    half: u32,
}

/// The lower half of a sum.
fn lower_half(sum: u64) -> u32 {
    (sum & 0xFFFFFFFF) as u32
}

/// A look-up in a chain.
#[derive(Clone, Copy)]
struct Query<'a> {
    /// The literals of an initial step, as they are written.
    lits: &'a [Lit],
    /// Their sum, of the kind of the chains.
    sum: u64,
    /// At most this many clauses are looked at.
    most: usize,
}

/// Positions in chains, by their sums.
#[derive(Drop)]
struct Chains {
    heads: Vec<u32>,
    links: Vec<Link>,
}

impl Chains {
    /// Empty chains, for this many positions.
    fn new(alloc: Global, count: usize) -> Result<Chains, AllocError> {
        Ok(Chains {
            heads: vec![in alloc; END; count]?,
            links: vec![in alloc; Link { next: END, half: 0 }; count]?,
        })
    }

    /// Which chain a sum belongs to, by its upper half.
    fn chain_of(&self, sum: u64) -> usize {
        ((sum >> 32).wrapping_mul(self.heads.len() as u64) >> 32) as usize
    }

    /// Puts a position at the beginning of its chain. Those that are too great are left out.
    fn push(&mut self, sum: u64, position: usize) {
        let chain = self.chain_of(sum);
        if chain < self.heads.len() && position < self.links.len() && position < END as usize {
            self.links[position] = Link {
                next: self.heads[chain],
                half: lower_half(sum),
            };
            self.heads[chain] = position as u32;
        }
    }

    /// The entry at a position in its chain.
    fn link(&self, position: u32) -> Link {
        match self.links.get(position as usize) {
            Some(link) => *link,
            None => Link { next: END, half: 0 },
        }
    }

    /// The position of a clause with the sum of the literals that accepts them, among as many of the
    /// chain as the query allows.
    fn find(
        &self,
        seen: &mut SeenLits,
        formula: &Formula,
        query: Query,
    ) -> Result<Option<usize>, AllocError>
        ensures { IfOk result (λ found. IfSome found (IsAcceptedAt formula.now query.entry.lits.now)) }
    {
        let mut position = match self.heads.get(self.chain_of(query.sum)) {
            Some(head) => *head,
            None => END,
        };
        for _ in 0..self.links.len().min(query.most) {
            if position == END {
                return Ok(None);
            }
            let link = self.link(position);
            if link.half == lower_half(query.sum) {
                if accepts_at(seen, formula, position as usize, query.lits)? {
                    return Ok(Some(position as usize));
                }
            }
            position = link.next;
        }
        Ok(None)
    }
}

/// The clauses of a formula by their sums of one kind.
#[derive(Drop)]
struct ClauseIndex {
    alloc: Global,
    kind: Kind,
    /// Made when a clause is first looked up.
    chains: Option<Chains>,
}

impl ClauseIndex {
    /// An index whose chains are not made yet. It takes no memory.
    fn new(alloc: Global, kind: Kind) -> ClauseIndex {
        ClauseIndex {
            alloc,
            kind,
            chains: None,
        }
    }

    /// The clauses of a formula in their chains.
    fn chains_of(&self, seen: &mut SeenLits, formula: &Formula) -> Result<Chains, AllocError> {
        let count = formula.clauses();
        seen.make_room(formula.prefix())?;
        let mut chains = Chains::new(self.alloc, count)?;
        for position in (0..count).rev() {
            let sum = sum_of(self.kind, seen, formula.prefix(), formula.clause(position))?;
            chains.push(sum, position);
        }
        Ok(chains)
    }

    /// The sum by which literals are looked up.
    ///
    /// # Errors
    /// If an allocation fails.
    fn sum(&self, seen: &mut SeenLits, formula: &Formula, lits: &[Lit]) -> Result<u64, AllocError> {
        sum_of(self.kind, seen, formula.prefix(), lits)
    }

    /// The position of a clause that accepts the literals, among those that have the same sum.
    fn find(
        &mut self,
        seen: &mut SeenLits,
        formula: &Formula,
        query: Query,
    ) -> Result<Option<usize>, AllocError>
        ensures { IfOk result (λ found. IfSome found (IsAcceptedAt formula.now query.entry.lits.now)) }
    {
        if let Some(chains) = &self.chains {
            return chains.find(seen, formula, query);
        }
        let chains = self.chains_of(seen, formula)?;
        let found = chains.find(seen, formula, query)?;
        self.chains = Some(chains);
        Ok(found)
    }
}

/// Finds the initial clauses of a trace in the formula.
#[derive(Drop)]
pub struct InitialClauses {
    /// The position after the clause that was found last: solvers mostly write them in their order.
    next: usize,
    /// By the literals that a reduct keeps.
    kept: ClauseIndex,
    /// By all literals, if many clauses keep the same.
    all: ClauseIndex,
}

impl InitialClauses {
    /// Nothing is known of the formula. It takes no memory.
    pub fn new(alloc: Global) -> InitialClauses {
        InitialClauses {
            next: 0,
            kept: ClauseIndex::new(alloc, Kind::Kept),
            all: ClauseIndex::new(alloc, Kind::All),
        }
    }

    /// The position of a clause that accepts the literals.
    fn find(
        &mut self,
        seen: &mut SeenLits,
        formula: &Formula,
        lits: &[Lit],
    ) -> Result<Option<usize>, AllocError>
        ensures { IfOk result (λ found. IfSome found (IsAcceptedAt formula.now lits.now)) }
    {
        let sum = self.kept.sum(seen, formula, lits)?;
        let few = Query {
            lits,
            sum,
            most: FEW,
        };
        if let Some(position) = self.kept.find(seen, formula, few)? {
            return Ok(Some(position));
        }
        let most = usize::MAX;
        let whole = self.all.sum(seen, formula, lits)?;
        let all = Query {
            lits,
            sum: whole,
            most,
        };
        if let Some(position) = self.all.find(seen, formula, all)? {
            return Ok(Some(position));
        }
        self.kept.find(seen, formula, Query { lits, sum, most })
    }

    /// The position of a clause that accepts the literals. The clause after the one that was found
    /// last is looked at first.
    fn find_again(
        &mut self,
        formula: &Formula,
        seen: &mut SeenLits,
        lits: &[Lit],
    ) -> Result<Option<usize>, AllocError>
        ensures { IfOk result (λ found. IfSome found (IsAcceptedAt formula.now lits.now)) }
    {
        let next = self.next;
        if accepts_at(seen, formula, next, lits)? {
            self.next = next.saturating_add(1);
            return Ok(Some(next));
        }
        let found = self.find(seen, formula, lits)?;
        if let Some(position) = found {
            self.next = position.saturating_add(1);
        }
        Ok(found)
    }

    /// Accepts literals that are clean and bound and, as they are written, a reduct of a clean
    /// clause of the formula.
    #[tactic(auto, using(crate::proofs::AcceptedClauses::some_accepted))]
    pub(crate) fn accepts_initial(
        &mut self,
        formula: &Formula,
        seen: &mut SeenLits,
        lits: &[Lit],
    ) -> Result<bool, AllocError>
        ensures { IfOk result (IsAcceptedIf formula.now lits.now) }
    {
        Ok(self.find_again(formula, seen, lits)?.is_some())
    }

    /// The position of a clean clause of the formula of which the literals are a reduct, or `None`
    /// if there is none. Each call takes the same formula.
    ///
    /// # Errors
    /// If an allocation fails.
    pub fn find_clause(
        &mut self,
        formula: &Formula,
        seen: &mut SeenLits,
        lits: &[Lit],
    ) -> Result<Option<usize>, AllocError>
        requires { IsFit formula.now.blocks lits.now }
        ensures found { IfOk result (λ found. IfSome found (IsReductAt formula.now lits.now)) }
        ensures only { IfOk result (λ found. IfNone found (HasNoReduct formula.now lits.now)) }
    {
        if let Some(position) = self.find_again(formula, seen, lits)? {
            return Ok(Some(position));
        }
        match LitSet::from_slice(self.kept.alloc, lits, formula.prefix()) {
            Ok(set) => reduced_clause(self.kept.alloc, formula, set.as_slice()),
            // The literals are clean and bound, so neither of these is met.
            Err(SetFault::E1) => Ok(None),
            Err(SetFault::E2) => Ok(None),
            Err(SetFault::E3) => Err(AllocError),
        }
    }
}
