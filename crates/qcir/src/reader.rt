//! A text as it is read, line by line.

ghost use Rattle.std.specs.Prelude.{◌≡◌, [], false};
ghost use Rattle.qcir.specs.Outcomes.{LeadsTo};
ghost use Rattle.qcir.specs.Reading.{AtPrefix, lines_left, result_at, row};

use crate::fault::QuestionFault;
use crate::lines::read_prefix_line;
use crate::missing::read_line_after_output;
use crate::parts::Parts;
use crate::question::Question;
use qcir_tokens::Line;
use std::alloc::Global;
use std::marker::Model;

/// What the lines so far say.
///
/// Contracts see where the next line stands.
#[derive(Drop)]
pub(crate) struct Reader<'a> {
    parts: Parts<'a>,
    /// Whether the output was read: then its name, and whether a minus stands before it.
    in_gates: bool,
    negative: bool,
    output: &'a [u8],
}

impl<'a> Model for Reader<'a> {
    ghost use Rattle.qcir.specs.Reading.{State, state_of};

    ghost Value = { State };

    ghost view = { λ r. state_of r.in_gates r.negative r.output.now r.parts };
}

impl<'a> Reader<'a> {
    /// After the header. It takes no memory yet.
    pub(crate) fn new(alloc: Global) -> Reader<'a>
        ensures { result ≡ AtPrefix }
    {
        Reader {
            parts: Parts::new(alloc),
            in_gates: false,
            negative: false,
            output: b"",
        }
    }

    /// Reads a line, without its line end. The text after it and whether that has lines say which
    /// fault an input that no line before gives is.
    ///
    /// # Errors
    /// The fault of the line at its place, and Q11 if an allocation failed.
    pub(crate) fn take_line(
        &mut self,
        line: &'a [u8],
        text: &[u8],
        is_left: bool,
    ) -> Result<(), QuestionFault>
        ensures { LeadsTo (row self.old line.now (lines_left is_left text.now)) self.new result }
    {
        if self.in_gates {
            return read_line_after_output(&mut self.parts, line, text, is_left);
        }
        match read_prefix_line(&mut Line::new(line), &mut self.parts) {
            Err(fault) => Err(fault),
            Ok(None) => Ok(()),
            Ok(Some((negative, output))) => {
                self.in_gates = true;
                self.negative = negative;
                self.output = output;
                Ok(())
            }
        }
    }

    /// The formula, if these were all lines.
    ///
    /// # Errors
    /// Q9 if no output was read, and Q12 if no line gives its name.
    pub(crate) fn finish(self) -> Result<Question<'a>, QuestionFault>
        ensures { result ≡ result_at self.entry }
    {
        if !self.in_gates {
            return Err(QuestionFault::Q9);
        }
        self.parts.finish(self.negative, self.output)
    }
}
