//! The bytes that part tokens.

ghost use Rattle.std.specs.Prelude.{◌≡◌};
ghost use Rattle.qbf_tokens.specs.Tokens.{is_blank};
ghost use Rattle.qbf_tokens.specs.Left.{is_separator};

/// Whether the byte parts tokens within a line: a space, a tab or a carriage return.
#[inline(always)]
pub fn is_blank(byte: u8) -> bool
    ensures { result ≡ is_blank byte }
{
    byte == b' ' || byte == b'\t' || byte == b'\r'
}

/// Whether the byte ends a token: a blank or a line end.
#[inline(always)]
pub fn is_separator(byte: u8) -> bool
    ensures { result ≡ is_separator byte }
{
    is_blank(byte) || byte == b'\n'
}
