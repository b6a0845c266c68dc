//! The lines of a text, one after the other.

ghost use Rattle.std.specs.Prelude.{◌≡◌, ◌<◌, true, false, length, ◌∷◌, position};
ghost use Rattle.std.specs.List.{slice_split};
ghost use Rattle.qbf_tokens.specs.Tokens.{is_line_end};
ghost use Rattle.qcir.specs.Reading.{lines_left};

use memchr::memchr;

/// Where the first line of a text ends, if it has a line end.
#[tactic(auto, using(crate::proofs::TextLines::found_end))]
fn line_end(text: &[u8]) -> Option<usize>
    ensures { result ≡ position is_line_end text.now }
{
    memchr(b'\n', text)
}

/// The first line of a text without its line end, what stands after that, and whether there is a
/// line end: if there is none, this is the last line.
pub(crate) fn split_line(text: &[u8]) -> (&[u8], &[u8], bool)
    ensures lines { slice_split is_line_end text.now
        ≡ result.0.now ∷ lines_left result.2 result.1.now }
    ensures shorter { result.2 ≡ true → length result.1.now < length text.now }
    ensures last { result.2 ≡ false → length result.1.now ≡ 0 }
{
    match line_end(text) {
        None => (text, b"".as_slice(), false),
        Some(end) => (&text[..end], &text[end + 1..], true),
    }
}
