//! The kind of a run of bytes, found while the run is read.

ghost use Rattle.std.specs.Prelude.{◌≡◌, ℕ, ◌+◌, ◌*◌, ◌^◌, ◌<◌, nat_lt, true, false, List, [], ◌∷◌};
ghost use Rattle.std.specs.Prelude.{◌++◌};
ghost use Rattle.qbf_tokens.specs.Tokens.{kind, word};
ghost use Rattle.qbf_tokens.specs.Runs.{digits_of, begins_number, IsNumeral, IsSpelling};

use crate::token::{Token, Word};

/// A number of 64 bits without its last digit is at most this.
const TENTH: u64 = u64::MAX / 10;

/// Whether a number with one digit more has at most 64 bits.
fn takes(number: u64, digit: u64) -> bool
    requires { digit < 10 }
    ensures { result ≡ nat_lt (10 * number + digit) (2 ^ 64) }
{
    number < TENTH || number == TENTH && digit <= u64::MAX % 10
}

/// The state that is kept of the digits of a run.
#[derive(Clone, Copy)]
pub enum Digits {
    /// Digits of this magnitude, 0 before the first.
    Value(u64),
    /// Digits of a magnitude above 64 bits.
    Big,
    /// Not digits alone.
    Other,
}

impl Digits {
    /// The state with one byte more.
    #[tactic(auto, using(crate::proofs::DigitByDigit::pushes, crate::proofs::DigitByDigit::push_taken, crate::proofs::DigitByDigit::push_not_taken))]
    fn push(self, byte: u8) -> Digits
        ensures { (ds : List ℕ) → self ≡ digits_of ds → result ≡ digits_of (ds ++ byte ∷ []) }
    {
        if !byte.is_ascii_digit() {
            return Digits::Other;
        }
        let digit = u64::from(byte - b'0');
        match self {
            Digits::Value(n) if takes(n, digit) => Digits::Value(10 * n + digit),
            Digits::Value(_) | Digits::Big => Digits::Big,
            Digits::Other => Digits::Other,
        }
    }
}

/// The state that is kept of a run while its bytes are read, in the same room for any length.
pub trait Run: Drop {
    /// Whether it is for runs that begin with this byte.
    ghost begins: { ℕ → Type 0 };

    /// Whether these bytes were read.
    ghost reads: { Self → List ℕ → Type 0 };

    /// A run that begins with this byte.
    fn begin(first: u8) -> Self
        requires { begins first }
        ensures { reads result (first ∷ []) };

    /// Adds a byte to the run.
    fn push(&mut self, byte: u8)
        ensures { (run : List ℕ) → reads self.old run → reads self.new (run ++ byte ∷ []) };

    /// The kind of the run.
    fn kind(&self) -> Token
        ensures { (run : List ℕ) → reads self.now run → result ≡ kind run };
}

/// Whether a run that begins with this byte can be a number, and cannot be a word.
pub fn begins_number(first: u8) -> bool
    ensures { result ≡ begins_number (first ∷ []) }
{
    first == b'-' || first.is_ascii_digit()
}

/// The state that is kept of a run that begins as a number does.
#[derive(Clone, Copy)]
pub struct Numeral {
    negative: bool,
    digits: Digits,
}

impl Run for Numeral {
    ghost begins = { λ first. begins_number (first ∷ []) ≡ true };

    ghost reads = { λ n run. IsNumeral n.negative n.digits run };

    fn begin(first: u8) -> Numeral {
        let negative = first == b'-';
        let digit = if negative { 0 } else { first - b'0' };
        Numeral {
            negative,
            digits: Digits::Value(u64::from(digit)),
        }
    }

    fn push(&mut self, byte: u8) {
        self.digits = self.digits.push(byte);
    }

    #[tactic(auto, using(crate::proofs::KindKept::kinds_kept))]
    fn kind(&self) -> Token {
        match self.digits {
            Digits::Big => Token::Big,
            Digits::Value(value) if !(self.negative && value == 0) => Token::Number {
                negative: self.negative,
                value,
            },
            // Without digits the value is 0 too, and a minus alone is bad as one before 0 is.
            Digits::Value(_) | Digits::Other => Token::Bad,
        }
    }
}

/// How long the longest word is.
const LONGEST: usize = 5;

/// The state that is kept of a run that does not begin as a number does.
#[derive(Clone, Copy)]
pub struct Spelling {
    front: [u8; LONGEST],
    len: usize,
}

impl Run for Spelling {
    ghost begins = { λ first. begins_number (first ∷ []) ≡ false };

    ghost reads = { λ s run. IsSpelling s.front s.len run };

    fn begin(first: u8) -> Spelling {
        Spelling {
            front: [first, 0, 0, 0, 0],
            len: 1,
        }
    }

    fn push(&mut self, byte: u8) {
        if self.len < LONGEST {
            self.front[self.len] = byte;
        }
        if self.len <= LONGEST {
            self.len += 1;
        }
    }

    #[tactic(auto, using(crate::proofs::KindKept::kinds_kept))]
    fn kind(&self) -> Token {
        match self.word() {
            Some(word) => Token::Word(word),
            None => Token::Bad,
        }
    }
}

impl Spelling {
    /// The word that the run is.
    fn word(&self) -> Option<Word>
        ensures { (run : List ℕ) → IsSpelling self.now.front self.now.len run → result ≡ word run }
    {
        if self.len > LONGEST {
            return None;
        }
        word_of(&self.front[..self.len])
    }
}

/// The word that these bytes are.
fn word_of(spelled: &[u8]) -> Option<Word>
    ensures { result ≡ word spelled.now }
{
    if spelled == b"p".as_slice() {
        Some(Word::P)
    } else if spelled == b"cnf".as_slice() {
        Some(Word::Cnf)
    } else if spelled == b"qrp".as_slice() {
        Some(Word::Qrp)
    } else if spelled == b"a".as_slice() {
        Some(Word::A)
    } else if spelled == b"e".as_slice() {
        Some(Word::E)
    } else if spelled == b"r".as_slice() {
        Some(Word::R)
    } else if spelled.eq_ignore_ascii_case(b"sat") {
        Some(Word::Sat)
    } else if spelled.eq_ignore_ascii_case(b"unsat") {
        Some(Word::Unsat)
    } else {
        None
    }
}
