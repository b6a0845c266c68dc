//! The canonical text of a formula of gates.

ghost use Rattle.std.specs.Prelude.{◌≡◌, ◌++◌, ℕ, List, Ok};
ghost use Rattle.std.specs.List.{flat_map};
ghost use Rattle.qbf_text.specs.Written.{IsPut};
ghost use Rattle.qbf_gates.specs.Kept.{gate_of};
ghost use Rattle.qcir.specs.Reading.{read_gates};
ghost use Rattle.qcir.specs.Texts.{gate_word, literal_text, text};
ghost use Rattle.qcir.specs.Written.{closed_text, gates_text, input_text, opening, set_opening, sets_text};

use crate::names::Names;
use crate::question::Question;
use dimacs_syntax::{Bytes, Put};
use qbf_core::{Lit, Prefix, Quantifier, Var};
use qbf_gates::{GateKind, Gates};
use qbf_text::{Sink, SinkFault, put_bytes};

/// A literal by its name.
#[derive(Clone, Copy)]
struct Signed<'q, 'a>(&'q Names<'a>, Lit);

impl<'q, 'a> Put for Signed<'q, 'a> {
    ghost text = { λ s. literal_text s.0.now s.1 };

    fn put<K: Sink>(&self, sink: &mut K) -> Result<(), SinkFault> {
        let name = Bytes(self.0.name_or_empty(self.1.var()));
        if self.1.is_negative() {
            (Bytes(b"-"), name).put(sink)
        } else {
            name.put(sink)
        }
    }
}

/// Literals by their names, each after a comma.
#[derive(Clone, Copy)]
struct Further<'q, 'a>(&'q Names<'a>, &'q [Lit]);

impl<'q, 'a> Put for Further<'q, 'a> {
    ghost text = { λ f. flat_map (input_text f.0.now) f.1.now };

    fn put<K: Sink>(&self, sink: &mut K) -> Result<(), SinkFault> {
        for lit in self.1 {
            (Bytes(b", "), Signed(self.0, *lit)).put(sink)?;
        }
        Ok(())
    }
}

/// Literals by their names, between `(` and `)`, and a line end.
#[derive(Clone, Copy)]
struct Closed<'q, 'a>(&'q Names<'a>, &'q [Lit]);

impl<'q, 'a> Put for Closed<'q, 'a> {
    ghost text = { λ c. closed_text c.0.now c.1.now };

    fn put<K: Sink>(&self, sink: &mut K) -> Result<(), SinkFault> {
        match self.1 {
            [] => put_bytes(sink, b"()\n"),
            [first, rest @ ..] => {
                let inputs = (Signed(self.0, *first), Further(self.0, rest));
                ((Bytes(b"("), inputs), Bytes(b")\n")).put(sink)
            }
        }
    }
}

/// The word of a quantifier, and `(`.
fn set_opening(quantifier: Quantifier) -> Bytes<'static>
    ensures { result.0.now ≡ set_opening quantifier }
{
    match quantifier {
        Quantifier::All => Bytes(b"forall("),
        Quantifier::Exists => Bytes(b"exists("),
    }
}

/// A variable, after the opening of its set if the one before it has another quantifier.
fn put_variable<K: Sink>(
    sink: &mut K,
    last: Option<Quantifier>,
    quantifier: Quantifier,
    name: &[u8],
) -> Result<(), SinkFault>
    ensures { IsPut K.written K.failures K.failed_last sink.old sink.new
        (opening last quantifier ++ name.now) result }
{
    match last {
        None => (set_opening(quantifier), Bytes(name)).put(sink),
        Some(open) if open == quantifier => (Bytes(b", "), Bytes(name)).put(sink),
        Some(_) => ((Bytes(b")\n"), set_opening(quantifier)), Bytes(name)).put(sink),
    }
}

/// The sets of a prefix, each on its line.
#[derive(Clone, Copy)]
struct SetLines<'q, 'a>(&'q Names<'a>, &'q Prefix);

impl<'q, 'a> Put for SetLines<'q, 'a> {
    ghost text = { λ s. sets_text s.0.now s.1.now };

    fn put<K: Sink>(&self, sink: &mut K) -> Result<(), SinkFault> {
        let mut last = None;
        for i in 0..self.1.len() {
            let (quantifier, var) = self.1.pair(i);
            put_variable(sink, last, quantifier, self.0.name_or_empty(var))?;
            last = Some(quantifier);
        }
        match last {
            None => Ok(()),
            Some(_) => put_bytes(sink, b")\n"),
        }
    }
}

/// The word of a gate of this kind, or `and` if it has more or fewer inputs than its kind.
fn kind_word(kind: GateKind, inputs: &[Lit]) -> Bytes<'static>
    ensures { result.0.now ≡ gate_word (gate_of kind inputs.now) }
{
    match kind {
        GateKind::Conjunction => Bytes(b"and"),
        GateKind::Disjunction => Bytes(b"or"),
        GateKind::Difference => match inputs {
            [_, _] => Bytes(b"xor"),
            _ => Bytes(b"and"),
        },
        GateKind::Choice => match inputs {
            [_, _, _] => Bytes(b"ite"),
            _ => Bytes(b"and"),
        },
    }
}

/// Sends the gates, each on its line.
fn put_gates<K: Sink>(sink: &mut K, names: &Names, gates: &Gates) -> Result<(), SinkFault>
    ensures { IsPut K.written K.failures K.failed_last sink.old sink.new
        (gates_text names.now gates.now.gates) result }
{
    for i in 0..gates.len() {
        let (var, kind, inputs) = gates.gate(i);
        let name = Bytes(names.name_or_empty(var));
        let value = (kind_word(kind, inputs), Closed(names, inputs));
        (name, (Bytes(b" = "), value)).put(sink)?;
    }
    Ok(())
}

/// Writes the canonical text of the formula in QCIR-14, and does not `finish` the sink.
///
/// The lines are the header `#QCIR-14`, each block as a set, outermost first, the output, and each
/// gate in its order with its inputs as kept. After a comma and about `=` stands one blank, and each
/// line ends with byte 10. Reading the text gives the formula.
///
/// # Errors
/// A `SinkFault` if the sink failed. What went out is a beginning of the text then.
pub fn write_question<K: Sink>(question: &Question, sink: &mut K) -> Result<(), SinkFault>
    ensures put { IsPut K.written K.failures K.failed_last
        sink.old sink.new (text question.now) result }
    // The text is read as the formula, with the same names.
    ensures reads_back { (bytes : List ℕ) → read_gates bytes ≡ Ok question.now
        → read_gates (text question.now) ≡ Ok question.now }
{
    let names = question.all_names();
    let gates = question.formula().gates();
    let output = [question.formula().output()];
    let front = (Bytes(b"#QCIR-14\n"), SetLines(names, gates.prefix()));
    let end = (Bytes(b"output"), Closed(names, &output));
    (front, end).put(sink)?;
    put_gates(sink, names, gates)
}
