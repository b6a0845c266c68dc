//! Marks: the bytes that stand between words.

ghost use Rattle.std.specs.Prelude.{◌≡◌, true, false};
ghost use Rattle.qcir_tokens.specs.Tokens.{is_word_byte, mark_of};

use crate::bytes::is_word_byte;

/// A byte that is neither of a word nor a blank.
#[derive(Clone, Copy, Debug, PartialEq, Eq)]
pub enum Mark {
    /// `(`
    Open,
    /// `)`
    Close,
    /// `,`
    Comma,
    /// `-`
    Minus,
    /// `=`
    Equals,
    /// `#`
    Hash,
    /// Any other byte.
    Other,
}

/// The mark that a byte is.
fn mark_of(byte: u8) -> Mark
    ensures { result ≡ mark_of byte }
{
    if byte == b'(' {
        return Mark::Open;
    }
    if byte == b')' {
        return Mark::Close;
    }
    if byte == b',' {
        return Mark::Comma;
    }
    if byte == b'-' {
        return Mark::Minus;
    }
    if byte == b'=' {
        return Mark::Equals;
    }
    if byte == b'#' {
        return Mark::Hash;
    }
    Mark::Other
}

/// Whether the byte is not of a word and is this mark.
pub(crate) fn is_mark(byte: u8, mark: Mark) -> bool
    ensures no_word { result ≡ true → is_word_byte byte ≡ false }
    ensures mark { result ≡ true → mark_of byte ≡ mark }
    ensures other { result ≡ false → is_word_byte byte ≡ false → mark_of byte ≡ mark → ⊥ }
{
    !is_word_byte(byte) && mark_of(byte) == mark
}
