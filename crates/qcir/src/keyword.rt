//! The words of the format.

ghost use Rattle.std.specs.Prelude.{◌≡◌};
ghost use Rattle.qcir.specs.Words.{keyword_of};
ghost use Rattle.qcir.specs.Reading.{kind_of};

use crate::fault::QuestionFault;
use qbf_gates::GateKind;

/// A word of the format, or any other word.
#[derive(Clone, Copy, Debug, PartialEq, Eq)]
pub(crate) enum Keyword {
    /// `forall`
    Forall,
    /// `exists`
    Exists,
    /// `free`
    Free,
    /// `output`
    Output,
    /// `and`
    And,
    /// `or`
    Or,
    /// `xor`
    Xor,
    /// `ite`
    Ite,
    /// Any other word.
    Other,
}

/// The word of the format that these bytes are.
pub(crate) fn keyword_of(word: &[u8]) -> Keyword
    ensures { result ≡ keyword_of word.now }
{
    if word == b"and".as_slice() {
        return Keyword::And;
    }
    if word == b"or".as_slice() {
        return Keyword::Or;
    }
    if word == b"xor".as_slice() {
        return Keyword::Xor;
    }
    if word == b"ite".as_slice() {
        return Keyword::Ite;
    }
    if word == b"exists".as_slice() {
        return Keyword::Exists;
    }
    if word == b"forall".as_slice() {
        return Keyword::Forall;
    }
    if word == b"output".as_slice() {
        return Keyword::Output;
    }
    if word == b"free".as_slice() {
        return Keyword::Free;
    }
    Keyword::Other
}

impl Keyword {
    /// The kind of gate that the word says.
    ///
    /// # Errors
    /// Q7 if it is a quantifier, and Q3 if it is any other word.
    pub(crate) fn kind(self) -> Result<GateKind, QuestionFault>
        ensures { result ≡ kind_of self }
    {
        match self {
            Keyword::And => Ok(GateKind::Conjunction),
            Keyword::Or => Ok(GateKind::Disjunction),
            Keyword::Xor => Ok(GateKind::Difference),
            Keyword::Ite => Ok(GateKind::Choice),
            Keyword::Exists | Keyword::Forall => Err(QuestionFault::Q7),
            Keyword::Free | Keyword::Output | Keyword::Other => Err(QuestionFault::Q3),
        }
    }
}
