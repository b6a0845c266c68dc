//! The tokens that the texts of QDIMACS and QRP are made of.

/// Which lines are comments: as to tokens, the two formats differ in this alone.
///
/// A comment line is one whose first byte that is not a blank is a comment byte. It holds no token.
#[derive(Clone, Copy, Debug, PartialEq, Eq)]
pub enum Comments {
    /// QDIMACS 1.1: lines that begin with `c`.
    Qdimacs,
    /// The text form of QRP: lines that begin with `c` or `#`.
    Qrp,
}

/// The words of both formats.
#[derive(Clone, Copy, Debug, PartialEq, Eq)]
pub enum Word {
    /// `p`, which begins the header.
    P,
    /// `cnf`, the format of a formula.
    Cnf,
    /// `qrp`, the format of a trace.
    Qrp,
    /// `a`, which begins a set of universal variables.
    A,
    /// `e`, which begins a set of existential variables.
    E,
    /// `r`, which begins the result.
    R,
    /// `sat`, each letter in either case.
    Sat,
    /// `unsat`, each letter in either case.
    Unsat,
}

/// The kind of a run of bytes between blanks and line ends, or the end of the text.
#[derive(Clone, Copy, Debug, PartialEq, Eq)]
pub enum Token {
    /// One of the words.
    Word(Word),
    /// Decimal digits, leading zeros allowed, after a `-` if negative.
    Number {
        /// Whether a `-` stands before the digits. It never does before 0.
        negative: bool,
        /// The magnitude, at most 18446744073709551615.
        value: u64,
    },
    /// Decimal digits, after a `-` or not, of a magnitude above 18446744073709551615.
    Big,
    /// Any other run of bytes, for instance `-0`, `+1` or `P`.
    Bad,
    /// The end of the text.
    End,
}

impl Comments {
    ghost use Rattle.std.specs.Prelude.{◌≡◌};
    ghost use Rattle.qbf_tokens.specs.Tokens.{is_comment_byte};

    /// Whether a line whose first byte is this one, blanks aside, is a comment.
    #[inline(always)]
    pub fn begins_with(self, byte: u8) -> bool
        ensures { result ≡ is_comment_byte self byte }
    {
        match self {
            Comments::Qdimacs => byte == b'c',
            Comments::Qrp => byte == b'c' || byte == b'#',
        }
    }
}
