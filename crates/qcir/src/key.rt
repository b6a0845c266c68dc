//! Names as keys.

ghost use Rattle.std.specs.Prelude.{ℕ, List, [], ◌∷◌};
ghost use Rattle.std.specs.Cmp.Lexicographic.{bytes_decides};
ghost use Rattle.std.proofs.Common.{ap};

use std::hash::{Hash, Hasher};

/// A name as the key of a set. All its bytes are hashed at once, while those of a slice are hashed
/// one after the other.
#[derive(Clone, Copy, PartialEq, Eq)]
pub(crate) struct Key<'a> {
    pub(crate) name: &'a [u8],
}

impl<'a> Hash for Key<'a> {
    ghost hash_input = { λ k. k.name.now ∷ [] };

    ghost respects_eq = { λ x y is.
        ap (λ (bytes : List ℕ). bytes ∷ []) ((bytes_decides x.name.now y.name.now).0 is) };

    fn hash<H: Hasher>(&self, state: &mut H) {
        state.write(self.name);
    }
}
