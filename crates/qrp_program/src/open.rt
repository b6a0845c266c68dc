//! How files are opened.

ghost use Rattle.std.specs.Prelude.{◌≡◌, ℕ, List, Option, Result, Ok, Err, IfOk, IfErr};
ghost use Rattle.qrp_program.specs.declared.open_fault.OpenFault.{OpenFault};

use crate::open_fault::OpenFault;
use qbf_text::Source;

/// The most bytes that are read of a file.
pub const LIMIT: u64 = 4611686018427387904;

/// Opens files to be read.
pub trait Open {
    /// An opened file.
    type File: Source + Drop;

    /// The results that opening this path may have: the bytes of the file, if they are known, or
    /// why it is not opened.
    ghost opens: { Self → List ℕ → Result (Option (List ℕ)) OpenFault → Type 0 };

    /// Opens a file, of which no more than `LIMIT` bytes are read.
    ///
    /// # Errors
    /// Why it is not opened.
    fn open(&self, path: &str) -> Result<Self::File, OpenFault>
        ensures file { IfOk result (λ f. opens self.now path.now (Ok (Self.File.remaining f))) }
        ensures bound { IfOk result (λ f. Self.File.bound f ≡ 4611686018427387904) }
        ensures failures { IfOk result (λ f. Self.File.failures f ≡ 0) }
        ensures fault { IfErr result (λ e. opens self.now path.now (Err e)) };
}
