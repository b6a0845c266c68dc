//! The bytes of a literal: one, two or four.

ghost use Rattle.std.specs.Prelude.{◌≡◌, ◌≤◌, [], ◌∷◌};
ghost use Rattle.std.specs.Int.{w8, w16, w32};
ghost use Rattle.qbf_core.specs.Blocks.{IsVariable};
ghost use Rattle.qbf_core.specs.Packed.{literal_in, packed};

use crate::literal::Lit;

/// The byte of a literal of a variable up to 127.
#[inline(always)]
pub(crate) fn byte_of(lit: Lit) -> u8
    requires { lit.var ≤ 127 }
    ensures { result ∷ [] ≡ packed w8 (lit ∷ []) }
{
    let [byte] = (lit.written() as i8).to_le_bytes();
    byte
}

/// The literal of a byte.
#[inline(always)]
pub(crate) fn of_one(a: u8) -> Lit
    requires { IsVariable (literal_in w8 (a ∷ [])).var }
    ensures { result ≡ literal_in w8 (a ∷ []) }
{
    Lit::of_written(i32::from(i8::from_le_bytes([a])))
}

/// The literal of two bytes.
#[inline(always)]
pub(crate) fn of_two(a: u8, b: u8) -> Lit
    requires { IsVariable (literal_in w16 (a ∷ b ∷ [])).var }
    ensures { result ≡ literal_in w16 (a ∷ b ∷ []) }
{
    Lit::of_written(i32::from(i16::from_le_bytes([a, b])))
}

/// The literal of four bytes.
#[inline(always)]
pub(crate) fn of_four(bytes: [u8; 4]) -> Lit
    requires { IsVariable (literal_in w32 bytes).var }
    ensures { result ≡ literal_in w32 bytes }
{
    Lit::of_written(i32::from_le_bytes(bytes))
}
