//! The files of the system.

ghost use Rattle.std.specs.Prelude.{◌≡◌, ◌≢◌, ℕ, ⊤, List, Option, Result, Ok, Err, IfOk, IfErr};
ghost use Rattle.std.specs.declared.io.ErrorKind.TheVariants.{OutOfMemory};
ghost use Rattle.qrp_program.specs.declared.open_fault.OpenFault.TheVariants.{NoMemory, NoFile};

use qbf_text::FromRead;
use qrp_program::{LIMIT, Open, OpenFault};
use std::fs;
use std::io::ErrorKind;
use std::rt::Files;

/// The files of the system, of which nothing is known.
#[derive(Clone, Copy)]
pub struct SystemFiles<'a, R> {
    rt: &'a R,
}

impl<'a, R: Files> SystemFiles<'a, R> {
    /// The files that this runtime opens.
    pub fn new(rt: &'a R) -> SystemFiles<'a, R> {
        SystemFiles { rt }
    }
}

/// Why a file is not open, by the kind of the error: out of memory, or there is no such file to be
/// read.
#[cold]
#[inline(never)]
fn open_failure(kind: ErrorKind) -> OpenFault
    ensures memory { kind ≡ OutOfMemory → result ≡ NoMemory }
    ensures file { kind ≢ OutOfMemory → result ≡ NoFile }
{
    match kind {
        ErrorKind::OutOfMemory => OpenFault::NoMemory,
        _ => OpenFault::NoFile,
    }
}

impl<R: Files> Open for SystemFiles<'_, R> {
    type File = FromRead<R::File>;

    ghost opens = { λ _ _ _. ⊤ };

    fn open(&self, path: &str) -> Result<FromRead<R::File>, OpenFault> {
        match fs::open(self.rt, path) {
            Ok(file) => Ok(FromRead::new(file, LIMIT)),
            Err(error) => Err(open_failure(error.kind())),
        }
    }
}
