//! How a header, literals and sets are written.

ghost use Rattle.std.specs.Prelude.{◌≡◌, ℕ, List, [], ◌∷◌, ◌++◌};
ghost use Rattle.std.specs.List.{flat_map};
ghost use Rattle.qbf_tokens.specs.Canonical.{spaced_number, token_text};
ghost use Rattle.qbf_text.specs.Written.{IsPut, spaced_text};
ghost use Rattle.qbf_tokens.specs.declared.token.Token.TheVariants.{Number};
ghost use Rattle.dimacs_syntax.specs.Spelling.{letter};
ghost use Rattle.dimacs_syntax.specs.Texts.{literal_text};

use qbf_core::{Lit, Quantifier, Var};
use qbf_text::{Sink, SinkFault, put_byte, put_bytes, put_signed, put_spaced, put_spaced_signed};

/// A value with a text of its own: a part of a line, a line, or several.
pub trait Put {
    /// Its text.
    ghost text: { Self → List ℕ };

    /// Sends its text.
    ///
    /// # Errors
    /// A `SinkFault` if the sink failed. What went out is a beginning of the text then.
    fn put<K: Sink>(&self, sink: &mut K) -> Result<(), SinkFault>
        ensures { IsPut K.written K.failures K.failed_last
            sink.old sink.new (text self.now) result };
}

/// A literal after a blank.
impl Put for Lit {
    ghost text = { literal_text };

    #[inline(always)]
    fn put<K: Sink>(&self, sink: &mut K) -> Result<(), SinkFault> {
        put_spaced_signed(sink, self.is_negative(), u64::from(self.var().number()))
    }
}

/// The sign of a literal, and the number of its variable.
#[inline(always)]
fn signed(lit: Lit) -> (bool, u64)
    ensures { spaced_text result ≡ literal_text lit }
{
    (lit.is_negative(), u64::from(lit.var().number()))
}

/// Four literals, each after a blank.
impl Put for [Lit; 4] {
    ghost text = { λ four. flat_map literal_text four };

    #[inline(always)]
    fn put<K: Sink>(&self, sink: &mut K) -> Result<(), SinkFault> {
        let [first, second, third, last] = *self;
        sink.push_four([signed(first), signed(second), signed(third), signed(last)])
    }
}

/// A variable after a blank.
impl Put for Var {
    ghost text = { spaced_number };

    #[inline(always)]
    fn put<K: Sink>(&self, sink: &mut K) -> Result<(), SinkFault> {
        put_spaced(sink, u64::from(self.number()))
    }
}

/// A number after a blank.
impl Put for u64 {
    ghost text = { spaced_number };

    #[inline(always)]
    fn put<K: Sink>(&self, sink: &mut K) -> Result<(), SinkFault> {
        put_spaced(sink, *self)
    }
}

/// A number, after a minus if it is negative, with nothing before it.
#[derive(Clone, Copy)]
pub struct Bare(pub bool, pub u64);

impl Put for Bare {
    ghost text = { λ n. token_text (Number n.0 n.1) };

    #[inline(always)]
    fn put<K: Sink>(&self, sink: &mut K) -> Result<(), SinkFault> {
        put_signed(sink, self.0, self.1)
    }
}

/// The letter of a quantifier.
impl Put for Quantifier {
    ghost text = { λ q. token_text (letter q) };

    #[inline(always)]
    #[tactic(auto, using(crate::proofs::WrittenParts::letter_text))]
    fn put<K: Sink>(&self, sink: &mut K) -> Result<(), SinkFault> {
        put_byte(sink, self.letter())
    }
}

/// Bytes as they stand.
#[derive(Clone, Copy)]
pub struct Bytes<'a>(pub &'a [u8]);

impl<'a> Put for Bytes<'a> {
    ghost text = { λ b. b.0.now };

    #[inline(always)]
    fn put<K: Sink>(&self, sink: &mut K) -> Result<(), SinkFault> {
        put_bytes(sink, self.0)
    }
}

/// One text after the other.
impl<A: Put, B: Put> Put for (A, B) {
    ghost text = { λ p. A.text p.0 ++ B.text p.1 };

    #[inline(always)]
    fn put<K: Sink>(&self, sink: &mut K) -> Result<(), SinkFault> {
        self.0.put(sink)?;
        self.1.put(sink)
    }
}

/// The texts of items, one after the other.
impl<P: Put> Put for &[P] {
    ghost text = { λ items. flat_map P.text items.now };

    #[inline(always)]
    fn put<K: Sink>(&self, sink: &mut K) -> Result<(), SinkFault> {
        for item in *self {
            item.put(sink)?;
        }
        Ok(())
    }
}

/// The line of a header: the bytes in front, and two numbers.
#[derive(Clone, Copy)]
pub struct HeaderLine<'a>(pub &'a [u8], pub u64, pub u64);

impl<'a> Put for HeaderLine<'a> {
    ghost text = { λ h. h.0.now ++ (spaced_number h.1 ++ (spaced_number h.2 ++ 10 ∷ [])) };

    fn put<K: Sink>(&self, sink: &mut K) -> Result<(), SinkFault> {
        (Bytes(self.0), (self.1, (self.2, Bytes(b"\n")))).put(sink)
    }
}
