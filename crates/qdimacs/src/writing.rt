//! The canonical text of a formula.

ghost use Rattle.std.specs.Prelude.{Ok, ◌≡◌, ◌≤◌, ◌++◌, length};
ghost use Rattle.std.specs.List.{AllByRecursion};
ghost use Rattle.qbf_core.specs.Blocks.{pairs, variables};
ghost use Rattle.qbf_text.specs.Written.{IsPut};
ghost use Rattle.qbf_tokens.specs.Canonical.{line_text, spaced_number};
ghost use Rattle.qdimacs.specs.Grammar.{text, clause, header};
ghost use Rattle.qdimacs.specs.Reading.{read_formula};
ghost use Rattle.qdimacs.specs.Texts.{opening, sets_text, clauses_text};

use dimacs_syntax::{Bare, Bytes, HeaderLine, Put};
use qbf_core::{Formula, Lit, Prefix, Quantifier, Var};
use qbf_text::{Sink, SinkFault, put_bytes};

/// A literal with nothing before it.
#[inline(always)]
fn bare(lit: Lit) -> Bare
    ensures sign { result.0 ≡ lit.negative }
    ensures number { result.1 ≡ lit.var }
{
    Bare(lit.is_negative(), u64::from(lit.var().number()))
}

/// A clause and its zero.
#[inline(always)]
#[tactic(auto, using(crate::proofs::WrittenParts::no_literals))]
fn put_clause<K: Sink>(sink: &mut K, lits: &[Lit]) -> Result<(), SinkFault>
    ensures { IsPut K.written K.failures K.failed_last
        sink.old sink.new (line_text (clause lits.now)) result }
{
    match lits {
        [] => put_bytes(sink, b"0\n"),
        [first, rest @ ..] => { (bare(*first), (rest, Bytes(b" 0\n"))).put(sink) }
    }
}

/// The clauses, each on its line.
#[derive(Clone, Copy)]
struct ClauseLines<'a>(&'a Formula);

impl<'a> Put for ClauseLines<'a> {
    ghost text = { λ c. clauses_text c.0.now.clauses };

    fn put<K: Sink>(&self, sink: &mut K) -> Result<(), SinkFault> {
        for i in 0..self.0.clauses() {
            put_clause(sink, self.0.clause(i))?;
        }
        Ok(())
    }
}

/// A variable, after the opening of its block if the one before it has another quantifier.
fn put_variable<K: Sink>(
    sink: &mut K,
    last: Option<Quantifier>,
    quantifier: Quantifier,
    var: Var,
) -> Result<(), SinkFault>
    ensures { IsPut K.written K.failures K.failed_last sink.old sink.new
        (opening last quantifier ++ spaced_number var) result }
{
    match last {
        None => (quantifier, var).put(sink),
        Some(open) if open == quantifier => var.put(sink),
        Some(_) => ((Bytes(b" 0\n"), quantifier), var).put(sink),
    }
}

/// The blocks, each with its letter and its zero.
#[derive(Clone, Copy)]
struct BlockLines<'a>(&'a Prefix);

impl<'a> Put for BlockLines<'a> {
    ghost text = { λ b. sets_text b.0.now };

    fn put<K: Sink>(&self, sink: &mut K) -> Result<(), SinkFault> {
        let mut last = None;
        for i in 0..self.0.len() {
            let (quantifier, var) = self.0.pair(i);
            put_variable(sink, last, quantifier, var)?;
            last = Some(quantifier);
        }
        match last {
            None => Ok(()),
            Some(_) => put_bytes(sink, b" 0\n"),
        }
    }
}

/// The header of a formula's text, with this greatest variable.
fn header_line<'a>(formula: &Formula, max_var: u32) -> HeaderLine<'a>
    ensures { ⟦<HeaderLine<'a> as Put>⟧.text result
        ≡ line_text (header max_var (length formula.now.clauses)) }
{
    HeaderLine(b"p cnf", u64::from(max_var), formula.clauses() as u64)
}

/// Writes the canonical text of the formula in QDIMACS 1.1, and does not `finish` the sink.
///
/// The lines are the header, each block as a set, outermost first, and each clause with its
/// literals as kept. Parts of a line are separated by one blank, numbers are decimal without
/// leading zeros, and each line ends with byte 10. Reading the text gives the formula.
///
/// # Errors
/// A `SinkFault` if the sink failed. What went out is a beginning of the text then.
pub fn write_formula<K: Sink>(formula: &Formula, sink: &mut K) -> Result<(), SinkFault>
    ensures put { IsPut K.written K.failures K.failed_last
        sink.old sink.new (text formula.now) result }
    // The text is read as the formula.
    ensures reads_back { read_formula (text formula.now) ≡ Ok formula.now }
{
    write_formula_up_to(formula, formula.max_var(), sink)
}

/// Writes the formula as `write_formula` does, with `max_var` in the header as the greatest
/// variable. It is at most 2147483647, and no variable of the prefix is above it.
///
/// # Errors
/// As of `write_formula`.
#[tactic(auto, using(crate::proofs::ReadingLaws::text_up_to_is_read))]
pub fn write_formula_up_to<K: Sink>(
    formula: &Formula,
    max_var: u32,
    sink: &mut K,
) -> Result<(), SinkFault>
    requires number { max_var ≤ 2147483647 }
    requires top { AllByRecursion (λ v. v ≤ max_var) (variables (pairs formula.now.blocks)) }
    ensures put { IsPut K.written K.failures K.failed_last
        sink.old sink.new (text (record formula.now { max_var = max_var })) result }
    // The text is read as this formula.
    ensures reads_back { read_formula (text (record formula.now { max_var = max_var }))
        ≡ Ok (record formula.now { max_var = max_var }) }
{
    let header = header_line(formula, max_var);
    (header, (BlockLines(formula.prefix()), ClauseLines(formula))).put(sink)
}
