//! The lines of a formula of gates.

ghost use Rattle.std.specs.Prelude.{◌≡◌, ◌<◌, true, false, length, IfSome, IfNone, IfOk, IfErr, OnOk, Ok, Err};
ghost use Rattle.std.specs.Result.{IsErrOf};
ghost use Rattle.qcir.specs.Lines.{SaysNothing, SaysSomething};
ghost use Rattle.qcir.specs.Outcomes.{LeadsTo, Refuses};
ghost use Rattle.qcir.specs.Reading.{PartsSoFar, InGates, InPrefix, gates_row, members, output_row, prefix_line, prefix_row};
ghost use Rattle.qcir.specs.declared.fault.QuestionFault.TheVariants.{Q3};

use crate::fault::QuestionFault;
use crate::keyword::{Keyword, keyword_of};
use crate::literals::{ends, signed_name};
use crate::parts::Parts;
use qbf_core::Quantifier;
use qcir_tokens::{Line, Mark};

/// Reads one variable of a set.
///
/// # Errors
/// Q3 if no name stands here, and those of `Parts::bind`.
fn read_member<'a>(
    line: &mut Line<'a>,
    parts: &mut Parts<'a>,
    quantifier: Quantifier,
) -> Result<(), QuestionFault>
    ensures read { OnOk result ((members quantifier true line.old (Ok parts.old)
        ≡ members quantifier false line.new (Ok parts.new))
        × (length line.new < length line.old)) }
    ensures refused { IfErr result (Refuses (members quantifier true line.old (Ok parts.old))) }
{
    let Some(name) = line.word() else {
        return Err(QuestionFault::Q3);
    };
    parts.bind(quantifier, name)
}

/// Reads the variables of a set between commas, up to the end of the line.
///
/// # Errors
/// As of `read_member`, and Q3 if they do not end with `)` and the line.
fn read_members<'a>(
    line: &mut Line<'a>,
    parts: &mut Parts<'a>,
    quantifier: Quantifier,
) -> Result<(), QuestionFault>
    ensures { LeadsTo (members quantifier true line.old (Ok parts.old)) parts.new result }
{
    let mut next = true;
    'members: while next {
        read_member(line, parts, quantifier)?;
        next = line.take(Mark::Comma);
    }
    if ends(line) {
        Ok(())
    } else {
        Err(QuestionFault::Q3)
    }
}

/// Reads the name of the output, up to the end of the line, and whether a minus stands before it.
fn read_output<'a>(line: &mut Line<'a>) -> Option<(bool, &'a [u8])>
    ensures some { IfSome result (λ p. (b : PartsSoFar) → output_row b line.old
        ≡ Ok (InGates b p.0 p.1.now)) }
    ensures none { IfNone result ((b : PartsSoFar) → output_row b line.old ≡ Err Q3) }
{
    let (negative, name) = signed_name(line)?;
    if ends(line) {
        Some((negative, name))
    } else {
        None
    }
}

/// Reads a line of the prefix after its first word and `(`: a set, or the output, whose name is
/// returned.
///
/// # Errors
/// Those of `read_members`; Q6 if the variables are free, and Q3 if no such line stands here.
fn read_after_word<'a>(
    word: Keyword,
    line: &mut Line<'a>,
    parts: &mut Parts<'a>,
) -> Result<Option<(bool, &'a [u8])>, QuestionFault>
    ensures set { IfOk result (λ o. IfNone o
        (prefix_line parts.old word line.old ≡ Ok (InPrefix parts.new))) }
    ensures output { IfOk result (λ o. IfSome o
        (λ p. prefix_line parts.old word line.old ≡ Ok (InGates parts.new p.0 p.1.now))) }
    ensures refused { IfErr result (Refuses (prefix_line parts.old word line.old)) }
{
    match word {
        Keyword::Exists => match read_members(line, parts, Quantifier::Exists) {
            Ok(()) => Ok(None),
            Err(fault) => Err(fault),
        },
        Keyword::Forall => match read_members(line, parts, Quantifier::All) {
            Ok(()) => Ok(None),
            Err(fault) => Err(fault),
        },
        Keyword::Output => match read_output(line) {
            Some(found) => Ok(Some(found)),
            None => Err(QuestionFault::Q3),
        },
        Keyword::Free => Err(QuestionFault::Q6),
        _ => Err(QuestionFault::Q3),
    }
}

/// Whether the line says nothing: it has no token, or it is a comment.
fn says_nothing(line: &mut Line) -> bool
    ensures nothing { result ≡ true → SaysNothing line.old }
    ensures something { result ≡ false → SaysSomething line.old }
    ensures kept { result ≡ false → line.new ≡ line.old }
{
    line.is_done() || line.take(Mark::Hash)
}

/// Reads a line of the prefix: nothing, a comment, a set, or the output, whose name is returned.
///
/// # Errors
/// As of `read_after_word`.
pub(crate) fn read_prefix_line<'a>(
    line: &mut Line<'a>,
    parts: &mut Parts<'a>,
) -> Result<Option<(bool, &'a [u8])>, QuestionFault>
    ensures set { IfOk result (λ o. IfNone o
        (prefix_row parts.old line.old ≡ Ok (InPrefix parts.new))) }
    ensures output { IfOk result (λ o. IfSome o
        (λ p. prefix_row parts.old line.old ≡ Ok (InGates parts.new p.0 p.1.now))) }
    ensures refused { IfErr result (Refuses (prefix_row parts.old line.old)) }
{
    if says_nothing(line) {
        return Ok(None);
    }
    let Some(word) = line.word() else {
        return Err(QuestionFault::Q3);
    };
    if !line.take(Mark::Open) {
        return Err(QuestionFault::Q3);
    }
    read_after_word(keyword_of(word), line, parts)
}

/// Reads a line after the output: nothing, a comment, or a gate.
///
/// # Errors
/// Q3 if no such line stands here, Q7 if the gate has a quantifier, and those of
/// `Parts::read_gate`.
pub(crate) fn read_gate_line<'a>(
    line: &mut Line<'a>,
    parts: &mut Parts<'a>,
) -> Result<(), QuestionFault>
    ensures read { LeadsTo (gates_row parts.old line.old) parts.new result }
    ensures kept { IsErrOf result QuestionFault.Q5 → parts.new.names ≡ parts.old.names }
{
    if says_nothing(line) {
        return Ok(());
    }
    let Some(name) = line.word() else {
        return Err(QuestionFault::Q3);
    };
    if !line.take(Mark::Equals) {
        return Err(QuestionFault::Q3);
    }
    let Some(word) = line.word() else {
        return Err(QuestionFault::Q3);
    };
    if !line.take(Mark::Open) {
        return Err(QuestionFault::Q3);
    }
    let kind = keyword_of(word).kind()?;
    parts.read_gate(line, name, kind)
}
