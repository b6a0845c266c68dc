//! The first line.

ghost use Rattle.std.specs.Prelude.{◌≡◌, ◌||◌, ◌&&◌, bytes_eq, codes};
ghost use Rattle.std.specs.List.{list_all};
ghost use Rattle.std.specs.Char.{is_ascii_digit};
ghost use Rattle.qcir.specs.Reading.{is_count, is_header};

use qcir_tokens::{Line, Mark};

/// Whether all of these bytes are digits.
fn are_digits(word: &[u8]) -> bool
    ensures { result ≡ list_all is_ascii_digit word.now }
{
    word.iter().all(|byte| byte.is_ascii_digit())
}

/// Whether a number is all that is left, or nothing.
fn is_count(line: &mut Line) -> bool
    ensures { result ≡ is_count line.old }
{
    if line.is_done() {
        return true;
    }
    match line.word() {
        None => false,
        Some(word) => line.is_done() && are_digits(word),
    }
}

/// Whether these are the name of the format and one of its versions.
fn is_format(name: &[u8], version: &[u8]) -> bool
    ensures { result ≡ (bytes_eq name.now (codes "QCIR")
        && (bytes_eq version.now (codes "14") || bytes_eq version.now (codes "G14"))) }
{
    name == b"QCIR".as_slice() && (version == b"14".as_slice() || version == b"G14".as_slice())
}

/// Whether the line is `#QCIR-14` or `#QCIR-G14`, with a number after it or not.
pub(crate) fn is_header(line: &mut Line) -> bool
    ensures { result ≡ is_header line.old }
{
    if !line.take(Mark::Hash) {
        return false;
    }
    let Some(name) = line.word() else {
        return false;
    };
    if !line.take(Mark::Minus) {
        return false;
    }
    let Some(version) = line.word() else {
        return false;
    };
    is_format(name, version) && is_count(line)
}
