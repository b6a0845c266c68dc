//! Separators among the bytes of a window.

ghost use Rattle.std.specs.Prelude.{◌≡◌, ◌<◌, ◌≤◌, length, nat_eq, slice_index, true};
ghost use Rattle.qbf_tokens.specs.Left.{is_separator};
ghost use Rattle.window_numbers.specs.Numbers.{AreSeparators, IsGapTo};

use qbf_tokens::is_separator;

/// For each byte, 0 if it separates tokens, else 1.
const OTHERS: [u8; 256] = [
    1, 1, 1, 1, 1, 1, 1, 1, 1, 0, 0, 1, 1, 0, 1, 1, 1, 1, 1, 1, 1, 1, 1, 1, 1, 1, 1, 1, 1, 1, 1, 1,
    0, 1, 1, 1, 1, 1, 1, 1, 1, 1, 1, 1, 1, 1, 1, 1, 1, 1, 1, 1, 1, 1, 1, 1, 1, 1, 1, 1, 1, 1, 1, 1,
    1, 1, 1, 1, 1, 1, 1, 1, 1, 1, 1, 1, 1, 1, 1, 1, 1, 1, 1, 1, 1, 1, 1, 1, 1, 1, 1, 1, 1, 1, 1, 1,
    1, 1, 1, 1, 1, 1, 1, 1, 1, 1, 1, 1, 1, 1, 1, 1, 1, 1, 1, 1, 1, 1, 1, 1, 1, 1, 1, 1, 1, 1, 1, 1,
    1, 1, 1, 1, 1, 1, 1, 1, 1, 1, 1, 1, 1, 1, 1, 1, 1, 1, 1, 1, 1, 1, 1, 1, 1, 1, 1, 1, 1, 1, 1, 1,
    1, 1, 1, 1, 1, 1, 1, 1, 1, 1, 1, 1, 1, 1, 1, 1, 1, 1, 1, 1, 1, 1, 1, 1, 1, 1, 1, 1, 1, 1, 1, 1,
    1, 1, 1, 1, 1, 1, 1, 1, 1, 1, 1, 1, 1, 1, 1, 1, 1, 1, 1, 1, 1, 1, 1, 1, 1, 1, 1, 1, 1, 1, 1, 1,
    1, 1, 1, 1, 1, 1, 1, 1, 1, 1, 1, 1, 1, 1, 1, 1, 1, 1, 1, 1, 1, 1, 1, 1, 1, 1, 1, 1, 1, 1, 1, 1,
];

/// The entry of a table for a byte.
#[inline(always)]
fn entry(table: &[u8], byte: u8) -> u8
    requires { byte < length table.now }
    ensures { result ≡ slice_index table.now byte }
{
    table[usize::from(byte)]
}

/// 0 if the byte at a place separates tokens.
#[inline(always)]
fn other_at(bytes: &[u8], place: usize) -> u8
    requires { place < length bytes.now }
    ensures { nat_eq result 0 ≡ is_separator (slice_index bytes.now place) }
{
    entry(&OTHERS, bytes[place])
}

/// Whether a separator stands at each of four places.
#[inline(always)]
#[tactic(auto, using(crate::proofs::NumbersInARow::four_separate))]
pub fn all_separate(bytes: &[u8], places: [usize; 4]) -> bool
    requires { (slice_index places 0 < length bytes.now) × (slice_index places 1 < length bytes.now)
        × (slice_index places 2 < length bytes.now) × (slice_index places 3 < length bytes.now) }
    ensures { result ≡ true → AreSeparators bytes.now places }
{
    let [a, b, c, d] = places;
    let [a, b] = [other_at(bytes, a), other_at(bytes, b)];
    let [c, d] = [other_at(bytes, c), other_at(bytes, d)];
    (a | b | c | d) == 0
}

/// The place of the first byte from a place on that separates no tokens, or that of the end.
#[inline(always)]
pub fn after_separators(bytes: &[u8], from: usize) -> usize
    requires { from ≤ length bytes.now }
    ensures gap { IsGapTo bytes.now from result }
    ensures within { result ≤ length bytes.now }
{
    let mut at = from;
    while at < bytes.len() && is_separator(bytes[at]) {
        at += 1;
    }
    at
}

/// The next place if a separator stands at this one, else this one.
#[inline(always)]
pub fn after_separator(bytes: &[u8], place: usize) -> usize
    ensures { IsGapTo bytes.now place result }
{
    if place >= bytes.len() {
        return place;
    }
    if other_at(bytes, place) == 0 {
        place + 1
    } else {
        place
    }
}
