//! The bytes of words, and blanks.

ghost use Rattle.std.specs.Prelude.{◌≡◌, ℕ, ◌<◌, ◌≤◌, true, false, length, slice_index, IfSome, IfNone};
ghost use Rattle.std.specs.Prelude.{List, [], ◌∷◌};
ghost use Rattle.qbf_tokens.specs.Tokens.{is_blank};
ghost use Rattle.qcir_tokens.specs.Tokens.{is_word_byte, tokens};
ghost use Rattle.qcir_tokens.specs.Front.{BeginsWithNoBlank};

/// Whether the byte is a letter, a digit or an underscore.
#[inline(always)]
pub(crate) fn is_word_byte(byte: u8) -> bool
    ensures { result ≡ is_word_byte byte }
{
    byte.is_ascii_alphanumeric() || byte == b'_'
}

/// Whether the byte is a blank: a space, a tab or a carriage return.
#[inline(always)]
fn is_blank(byte: u8) -> bool
    ensures { result ≡ is_blank byte }
{
    byte == b' ' || byte == b'\t' || byte == b'\r'
}

/// How many bytes of a word stand in front.
pub(crate) fn word_len(bytes: &[u8]) -> usize
    ensures within { result ≤ length bytes.now }
    ensures word { (k : ℕ) → k < result → is_word_byte (slice_index bytes.now k) ≡ true }
    ensures end { result < length bytes.now → is_word_byte (slice_index bytes.now result) ≡ false }
{
    for (i, byte) in bytes.iter().enumerate() {
        if !is_word_byte(*byte) {
            return i;
        }
    }
    bytes.len()
}

/// The bytes from the first one that is not a blank.
pub(crate) fn after_blanks(bytes: &[u8]) -> &[u8]
    ensures tokens { tokens result.now ≡ tokens bytes.now }
    ensures front { BeginsWithNoBlank result.now }
{
    let mut rest = bytes;
    'blanks: while let [first, more @ ..] = rest {
        if !is_blank(*first) {
            break;
        }
        rest = more;
    }
    rest
}
