//! Literals between commas.

ghost use Rattle.std.specs.Prelude.{◌≡◌, ◌<◌, true, false, [], ◌∷◌, ◌++◌, length, IfSome, IfNone, OnOk, IfErr, Ok};
ghost use Rattle.qbf_core.specs.Literal.{Literal};
ghost use Rattle.qcir_tokens.specs.declared.mark.Mark.TheVariants.{Close};
ghost use Rattle.qcir_tokens.specs.Tokens.{Sign};
ghost use Rattle.qcir.specs.Lines.{signed, BeginsWithNoName, IsNoEnd};
ghost use Rattle.qcir.specs.Outcomes.{LeadsTo, Refuses};
ghost use Rattle.qcir.specs.Reading.{and_literal, inputs, literals};

use crate::fault::QuestionFault;
use crate::names::Names;
use qbf_gates::Gates;
use qcir_tokens::{Line, Mark};

/// Takes a name, and says whether a minus stands before it. If none stands here, what is taken is
/// not told.
#[tactic(auto, using(crate::proofs::LineStarts::no_name, crate::proofs::LineStarts::no_name_after))]
pub(crate) fn signed_name<'a>(line: &mut Line<'a>) -> Option<(bool, &'a [u8])>
    ensures some { IfSome result (λ p. line.old ≡ signed p.0 p.1.now line.new) }
    ensures none { IfNone result (BeginsWithNoName line.old) }
{
    let negative = line.take(Mark::Minus);
    match line.word() {
        Some(word) => Some((negative, word)),
        None => None,
    }
}

/// Whether `)` is all that is left.
#[tactic(auto, using(crate::proofs::LineStarts::no_end, crate::proofs::LineStarts::no_end_after))]
pub(crate) fn ends(line: &mut Line) -> bool
    ensures end { result ≡ true → line.old ≡ Sign Close ∷ [] }
    ensures more { result ≡ false → IsNoEnd line.old }
{
    if !line.take(Mark::Close) {
        return false;
    }
    line.is_done()
}

/// Reads a literal, as one more input of the next gate.
///
/// # Errors
/// Q3 if none stands here, Q5 if its name is not given, and Q11 if an allocation failed.
fn read_literal<'a>(
    line: &mut Line<'a>,
    names: &Names<'a>,
    gates: &mut Gates,
) -> Result<(), QuestionFault>
    ensures read { OnOk result ((l : Literal)
        × (gates.new ≡ record gates.old { inputs = gates.old.inputs ++ l ∷ [] })
        × (literals names.now true line.old ≡ and_literal (Ok l) (literals names.now false line.new))
        × (length line.new < length line.old)) }
    ensures refused { IfErr result (Refuses (literals names.now true line.old)) }
    ensures rest { gates.new ≡ record gates.old { inputs = gates.new.inputs } }
{
    let Some((negative, word)) = signed_name(line) else {
        return Err(QuestionFault::Q3);
    };
    let Some(lit) = names.literal(negative, word) else {
        return Err(QuestionFault::Q5);
    };
    gates.push_input(lit)?;
    Ok(())
}

/// Reads literals between commas up to the end of the line, as inputs of the next gate, which has
/// none yet.
///
/// # Errors
/// As of `read_literal`, and Q3 if they do not end with `)` and the line.
fn read_literals<'a>(
    line: &mut Line<'a>,
    names: &Names<'a>,
    gates: &mut Gates,
) -> Result<(), QuestionFault>
    requires { gates.old.inputs ≡ [] }
    ensures read { LeadsTo (literals names.now true line.old) gates.new.inputs result }
    ensures rest { gates.new ≡ record gates.old { inputs = gates.new.inputs } }
{
    let mut next = true;
    'literals: while next {
        read_literal(line, names, gates)?;
        next = line.take(Mark::Comma);
    }
    if ends(line) {
        Ok(())
    } else {
        Err(QuestionFault::Q3)
    }
}

/// Reads the inputs of the next gate, up to the end of the line: literals between commas, or
/// nothing.
///
/// # Errors
/// As of `read_literals`.
pub(crate) fn read_inputs<'a>(
    line: &mut Line<'a>,
    names: &Names<'a>,
    gates: &mut Gates,
) -> Result<(), QuestionFault>
    ensures read { LeadsTo (inputs names.now line.old) gates.new.inputs result }
    ensures rest { gates.new ≡ record gates.old { inputs = gates.new.inputs } }
{
    gates.begin();
    if !line.take(Mark::Close) {
        return read_literals(line, names, gates);
    }
    if line.is_done() {
        Ok(())
    } else {
        Err(QuestionFault::Q3)
    }
}
