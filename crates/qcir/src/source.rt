//! The bytes of a source.

ghost use Rattle.std.specs.Prelude.{◌≡◌, ◌⊎◌, ◌+◌, ◌-◌, ◌^◌, ◌<◌, ◌≤◌, ℕ, List, ◌++◌, true, false, length};
ghost use Rattle.std.specs.Prelude.{IfOk, IfErr, IfSome, OnOk};
ghost use Rattle.std.specs.Io.KnownBytes.{Consumes, IsAtEnd};
ghost use Rattle.std.specs.Result.{IsErrOf};

use crate::fault::QuestionFault;
use qbf_text::Source;
use std::alloc::Global;

/// The number of bytes that are pulled at once.
const PIECE: usize = 65536;

/// Adds the bytes of one pull to a text, and says whether there may be more.
///
/// # Errors
/// Q1 if the source failed, and Q11 if an allocation failed.
fn pull_piece<S: Source>(
    source: &mut S,
    piece: &mut [u8],
    text: &mut Vec<u8>,
) -> Result<bool, QuestionFault>
    requires { 0 < length piece.old }
    ensures bytes { OnOk result ((pulled : List ℕ)
        × (text.new.items ≡ text.old.items ++ pulled)
        × Consumes (S.remaining source.old) (S.remaining source.new) pulled) }
    ensures at_end { IfOk result (λ more. more ≡ false → IsAtEnd (S.remaining source.new)) }
    ensures bound { IfOk result (λ more. more ≡ true → S.bound source.new < S.bound source.old) }
    ensures still { OnOk result (S.bound source.new ≤ S.bound source.old) }
    ensures works { OnOk result (S.failures source.new ≡ S.failures source.old) }
    ensures fault { IfErr result (λ f. (f ≡ QuestionFault.Q1) ⊎ (f ≡ QuestionFault.Q11)) }
    ensures failed { IsErrOf result QuestionFault.Q1 → S.failures source.old < 2 ^ 64 - 1
        → S.failures source.old < S.failures source.new }
    ensures kept { IsErrOf result QuestionFault.Q11 → S.failures source.new ≡ S.failures source.old }
{
    match source.pull(piece) {
        Err(_) => Err(QuestionFault::Q1),
        Ok(count) => {
            text.extend_from_slice(&piece[..count])?;
            Ok(count > 0)
        }
    }
}

/// All bytes that a source still gives.
///
/// # Errors
/// Q1 exactly if the source failed, and Q11 if an allocation failed.
pub fn read_bytes<S: Source>(alloc: Global, source: &mut S) -> Result<Vec<u8>, QuestionFault>
    ensures bytes { IfOk result (λ text. IfSome (S.remaining source.old)
        (λ bytes. text.items ≡ bytes)) }
    ensures works { OnOk result (S.failures source.new ≡ S.failures source.old) }
    ensures fault { IfErr result (λ f. (f ≡ QuestionFault.Q1) ⊎ (f ≡ QuestionFault.Q11)) }
    ensures failed { IsErrOf result QuestionFault.Q1 → S.failures source.old < 2 ^ 64 - 1
        → S.failures source.old < S.failures source.new }
    ensures kept { IsErrOf result QuestionFault.Q11 → S.failures source.new ≡ S.failures source.old }
{
    let mut piece = [0; PIECE];
    let mut text = Vec::new(alloc);
    let mut more = true;
    'pieces: while more {
        more = pull_piece(source, &mut piece, &mut text)?;
    }
    Ok(text)
}
