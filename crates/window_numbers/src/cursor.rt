//! A number that stands whole among the buffered bytes, by its bytes alone.

ghost use Rattle.std.specs.Prelude.{◌≡◌, ◌+◌, ◌^◌, ◌<◌, ◌≤◌, ◌&&◌, false, nat_eq, length, IfSome};
ghost use Rattle.qbf_tokens.specs.Runs.{begins_with_minus};
ghost use Rattle.window_numbers.specs.Cursors.{PassesToken};
ghost use Rattle.window_numbers.specs.Numbers.{BeginsWithLetter, BeginsWithNumber};

use decimal::digits;
use qbf_tokens::{Token, Word, is_separator};

/// A number, and the separator after it.
#[derive(Clone, Copy)]
pub struct SeparatedNumber {
    pub negative: bool,
    pub value: u64,
    /// How many bytes the two take.
    pub len: usize,
    /// Whether the separator ends the line.
    pub ends_line: bool,
}

/// Whether the bytes begin with a minus.
#[inline(always)]
pub fn begins_with_minus(bytes: &[u8]) -> bool
    ensures { result ≡ begins_with_minus bytes.now }
{
    match bytes {
        [first, ..] => *first == b'-',
        [] => false,
    }
}

/// Whether this is 0 after a minus, which is not a number.
#[inline(always)]
pub fn is_minus_zero(negative: bool, value: u64) -> bool
    ensures { result ≡ (negative && nat_eq value 0) }
{
    negative & (value == 0)
}

/// A zero of one digit, and the separator after it.
#[inline(always)]
fn zero(ends_line: bool) -> SeparatedNumber
    ensures { result ≡ record { negative = false; value = 0; len = 2; ends_line = ends_line } }
{
    SeparatedNumber {
        negative: false,
        value: 0,
        len: 2,
        ends_line,
    }
}

/// Finds the number at the front as `number_in_front` does, with up to 20 digits if it has 64 bits.
#[inline(never)]
fn signed_number(bytes: &[u8]) -> Option<SeparatedNumber>
    ensures { IfSome result (λ f. BeginsWithNumber bytes.now f.negative f.value f.len f.ends_line) }
{
    let negative = begins_with_minus(bytes);
    let start = usize::from(negative);
    let (value, end) = digits(bytes, start);
    if end == start || end >= bytes.len() || is_minus_zero(negative, value) {
        return None;
    }
    let separator = bytes[end];
    if !is_separator(separator) {
        return None;
    }
    Some(SeparatedNumber {
        negative,
        value,
        len: end + 1,
        ends_line: separator == b'\n',
    })
}

/// The number that the bytes begin with, if a separator follows it.
///
/// Also `None` for more than 20 digits. The zero that ends a list is the most frequent number, so
/// it is looked for first.
#[inline(always)]
pub fn number_in_front(bytes: &[u8]) -> Option<SeparatedNumber>
    ensures { IfSome result (λ f. BeginsWithNumber bytes.now f.negative f.value f.len f.ends_line) }
{
    match bytes {
        [b'0', b' ', ..] => Some(zero(false)),
        [b'0', b'\n', ..] => Some(zero(true)),
        _ => signed_number(bytes),
    }
}

/// The letter that begins a set, if the bytes begin with it and a blank.
#[inline(always)]
fn letter_in_front(bytes: &[u8]) -> Option<Word>
    ensures { IfSome result (λ word. BeginsWithLetter bytes.now word) }
{
    match bytes {
        [b'a', b' ', ..] => Some(Word::A),
        [b'e', b' ', ..] => Some(Word::E),
        _ => None,
    }
}

/// A place among the buffered bytes, held by value.
#[derive(Clone, Copy)]
pub struct Cursor {
    /// How many of them stand before it.
    pub at: usize,
    /// Its line.
    pub line: u64,
    /// 1 if a token stands before it on its line, else 0. It is a whole word: the padding after a
    /// `bool` would be copied too, by loads that wait for the store before them.
    pub tokens: u64,
}

/// A token that was passed, and where the next one stands.
#[derive(Clone, Copy)]
pub struct Passed {
    /// The token.
    pub token: Token,
    /// The cursor after the separator that follows it.
    pub next: Cursor,
}

impl Cursor {
    ghost use Rattle.window_numbers.specs.Cursors.{cursor_after, is_begun};
    ghost use Rattle.window_numbers.specs.Cursors.{one_if};
    ghost use Rattle.qbf_tokens.specs.declared.token.Token.TheVariants.{Number};

    /// The cursor at the first of the bytes.
    #[inline(always)]
    pub fn new(line: u64, begun: bool) -> Cursor
        ensures { result ≡ record { at = 0; line = line; tokens = one_if begun } }
    {
        Cursor {
            at: 0,
            line,
            tokens: u64::from(begun),
        }
    }

    /// Whether a token stands before it on its line.
    #[inline(always)]
    pub fn is_begun(self) -> bool
        ensures { result ≡ is_begun self }
    {
        self.tokens != 0
    }

    /// The token of a number that was found at the cursor, and the cursor after its separator.
    #[inline(always)]
    fn pass(self, found: SeparatedNumber) -> Passed
        requires { self.at + found.len < 2 ^ 64 }
        ensures token { result.token ≡ Number found.negative found.value }
        ensures next { result.next ≡ cursor_after self found.len found.ends_line }
    {
        let line = self.line;
        Passed {
            token: Token::Number {
                negative: found.negative,
                value: found.value,
            },
            next: Cursor {
                at: self.at + found.len,
                line: if found.ends_line {
                    line.saturating_add(1)
                } else {
                    line
                },
                tokens: u64::from(!found.ends_line),
            },
        }
    }

    /// The letter of a set, if it comes next, and the position after it.
    #[inline(always)]
    fn letter(self, bytes: &[u8]) -> Option<Passed>
        requires { self.at ≤ length bytes.now }
        ensures { IfSome result (λ p. PassesToken bytes.now self p.next p.token) }
    {
        let Some(word) = letter_in_front(&bytes[self.at..]) else {
            return None;
        };
        Some(Passed {
            token: Token::Word(word),
            next: Cursor {
                at: self.at + 2,
                line: self.line,
                tokens: 1,
            },
        })
    }

    /// The next number, with up to 20 digits if it has 64 bits, and the position after it.
    #[inline(always)]
    fn any_number(self, bytes: &[u8]) -> Option<Passed>
        requires { self.at ≤ length bytes.now }
        ensures { IfSome result (λ p. PassesToken bytes.now self p.next p.token) }
    {
        let Some(found) = number_in_front(&bytes[self.at..]) else {
            return None;
        };
        Some(self.pass(found))
    }

    /// The next token, if it is the letter of a set and a blank follows it, or a number and a
    /// separator follows it, and the position after them.
    #[inline(always)]
    pub fn token(self, bytes: &[u8]) -> Option<Passed>
        requires { self.at ≤ length bytes.now }
        ensures { IfSome result (λ p. PassesToken bytes.now self p.next p.token) }
    {
        match self.letter(bytes) {
            Some(passed) => Some(passed),
            None => self.any_number(bytes),
        }
    }
}
