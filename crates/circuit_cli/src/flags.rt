//! The flags of a command line.

ghost use Rattle.std.specs.Prelude.{◌≡◌, ◌↔◌, ◌⊎◌, codes, IsTrue};
ghost use Rattle.std.specs.String.{string_bytes};

use qrp_program::is_word;

/// Whether the words are the flags `--qu` and `--binary`, in any order.
pub fn are_both_flags(first: &String, second: &String) -> bool
    ensures { IsTrue result
        ↔ (((string_bytes first.now ≡ codes "--qu") × (string_bytes second.now ≡ codes "--binary"))
        ⊎ ((string_bytes first.now ≡ codes "--binary") × (string_bytes second.now ≡ codes "--qu"))) }
{
    if is_word(first, "--qu") {
        return is_word(second, "--binary");
    }
    is_word(first, "--binary") && is_word(second, "--qu")
}
