//! Reading a text.

ghost use Rattle.std.specs.Prelude.{◌≡◌, length, IfOk};
ghost use Rattle.std.specs.List.{range_with_len};
ghost use Rattle.qbf_gates.specs.Gates.{IsWellFormed, names};
ghost use Rattle.qcir.specs.Outcomes.{Tells};
ghost use Rattle.qcir.specs.Reading.{read_gates};

use crate::fault::QuestionFault;
use crate::header::is_header;
use crate::question::Question;
use crate::reader::Reader;
use crate::split::split_line;
use qcir_tokens::Line;
use std::alloc::Global;

/// A fault on its line, or out of memory on line 0.
fn on_line(fault: QuestionFault, line: u64) -> (QuestionFault, u64)
    ensures fault { result.0 ≡ fault }
    ensures line { fault ≡ QuestionFault.Q11 → result.1 ≡ 0 }
    ensures other { (fault ≡ QuestionFault.Q11 → ⊥) → result.1 ≡ line }
{
    match fault {
        QuestionFault::Q11 => (QuestionFault::Q11, 0),
        _ => (fault, line),
    }
}

/// Reads a formula of gates in QCIR-14 from the bytes of its text: the formula that they spell with
/// the names of its variables and gates, or the first fault and its line.
///
/// # Errors
/// Q2 to Q10 and Q12 as they are listed, and Q11 only if an allocation failed.
pub fn read_question<'a>(
    alloc: Global,
    text: &'a [u8],
) -> Result<Question<'a>, (QuestionFault, u64)>
    ensures reads { Tells (read_gates text.now) result }
    // It is well formed, and its variables and gates are numbered in the order of their names.
    ensures sound { IfOk result (λ q. IsWellFormed q.formula
        × (names q.formula ≡ range_with_len 1 (length q.names))) }
{
    let (first, mut rest, mut more) = split_line(text);
    if !is_header(&mut Line::new(first)) {
        return Err((QuestionFault::Q2, 1));
    }
    let mut reader = Reader::new(alloc);
    let mut line = 1;
    'lines: while more {
        let (next, after, again) = split_line(rest);
        line += 1;
        match reader.take_line(next, after, again) {
            Ok(()) => {}
            Err(fault) => return Err(on_line(fault, line)),
        }
        rest = after;
        more = again;
    }
    match reader.finish() {
        Ok(question) => Ok(question),
        Err(fault) => Err(on_line(fault, line)),
    }
}
