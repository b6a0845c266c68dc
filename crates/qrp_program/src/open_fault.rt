//! Why a file is not opened.

ghost use Rattle.std.specs.Prelude.{◌≡◌};
ghost use Rattle.qrp_program.specs.Program.{start_without_file};

use crate::start::Start;

/// Why a file is not opened.
#[derive(Clone, Copy, Debug, PartialEq, Eq)]
pub enum OpenFault {
    /// It cannot be opened.
    NoFile,
    /// An allocation failed.
    NoMemory,
}

impl OpenFault {
    /// How the program ends, if a file that cannot be opened is reported as `no_file`.
    pub fn start(self, no_file: Start) -> Start
        ensures { result ≡ start_without_file no_file self }
    {
        match self {
            OpenFault::NoFile => no_file,
            OpenFault::NoMemory => Start::NoMemory,
        }
    }
}
