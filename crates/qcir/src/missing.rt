//! Names that are missing: that no line before gives.

ghost use Rattle.std.specs.Prelude.{◌≡◌, true};
ghost use Rattle.qcir_tokens.specs.Tokens.{tokens};
ghost use Rattle.qcir.specs.Outcomes.{LeadsTo};
ghost use Rattle.qcir.specs.Reading.{by_lines, first_missing, gates_row, gives, is_given, lines_left, missing_fault};
ghost use Rattle.qcir.specs.Reading.{missing_input};

use crate::fault::QuestionFault;
use crate::lines::read_gate_line;
use crate::literals::signed_name;
use crate::names::Names;
use crate::parts::Parts;
use crate::split::split_line;
use qcir_tokens::{Line, Mark};

/// The first missing name of literals between commas, or no bytes.
fn first_missing<'a>(line: &mut Line<'a>, names: &Names) -> &'a [u8]
    ensures { result.now ≡ first_missing names.now true line.old }
{
    let mut next = true;
    'literals: while next {
        let Some((_, name)) = signed_name(line) else {
            return b"";
        };
        if !names.has(name) {
            return name;
        }
        next = line.take(Mark::Comma);
    }
    b""
}

/// The first missing input of a gate, or no bytes.
fn missing_input<'a>(line: &mut Line<'a>, names: &Names) -> &'a [u8]
    ensures { result.now ≡ missing_input names.now line.old }
{
    let Some(_) = line.word() else {
        return b"";
    };
    if !line.take(Mark::Equals) {
        return b"";
    }
    let Some(_) = line.word() else {
        return b"";
    };
    if !line.take(Mark::Open) {
        return b"";
    }
    first_missing(line, names)
}

/// Whether a line gives this name to a gate.
fn gives(name: &[u8], line: &mut Line) -> bool
    ensures { result ≡ gives name.now line.old }
{
    match line.word() {
        None => false,
        Some(word) => line.take(Mark::Equals) && word == name,
    }
}

/// Whether one of the lines that are left gives this name to a gate.
fn is_given_later(name: &[u8], text: &[u8], is_left: bool) -> bool
    ensures { result ≡ is_given name.now (lines_left is_left text.now) }
{
    let mut rest = text;
    let mut more = is_left;
    'lines: while more {
        let (line, after, again) = split_line(rest);
        if gives(name, &mut Line::new(line)) {
            return true;
        }
        rest = after;
        more = again;
    }
    false
}

/// The fault of a line with a missing input: Q5 if this line or one that is left gives its name,
/// and Q12 if none does.
#[cold]
fn missing_fault(names: &Names, line: &[u8], text: &[u8], is_left: bool) -> QuestionFault
    ensures { result ≡ missing_fault names.now line.now (lines_left is_left text.now) }
{
    let name = missing_input(&mut Line::new(line), names);
    if gives(name, &mut Line::new(line)) || is_given_later(name, text, is_left) {
        QuestionFault::Q5
    } else {
        QuestionFault::Q12
    }
}

/// Reads a line after the output: nothing, a comment, or a gate. The text after the line and
/// whether it has lines say which fault a missing input is.
///
/// # Errors
/// As of `read_gate_line`, and Q12 if no line gives the name of an input.
pub(crate) fn read_line_after_output<'a>(
    parts: &mut Parts<'a>,
    line: &'a [u8],
    text: &[u8],
    is_left: bool,
) -> Result<(), QuestionFault>
    ensures { LeadsTo (by_lines parts.old.names line.now (lines_left is_left text.now)
        (gates_row parts.old (tokens line.now))) parts.new result }
{
    match read_gate_line(&mut Line::new(line), parts) {
        Ok(()) => Ok(()),
        Err(QuestionFault::Q5) => Err(missing_fault(parts.names(), line, text, is_left)),
        Err(fault) => Err(fault),
    }
}
