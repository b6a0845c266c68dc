//! How the program ends before its job begins.

ghost use Rattle.std.specs.Prelude.{◌≡◌};
ghost use Rattle.qrp_program.specs.Lines.{start_line, start_status};

/// How the program ends before its job begins.
#[derive(Clone, Copy, Debug, PartialEq, Eq)]
pub enum Start {
    /// The arguments are not one of the command lines of the usage.
    Usage,
    /// The formula's file cannot be opened.
    NoFormula,
    /// The trace's file cannot be opened.
    NoTrace,
    /// An allocation failed: while the arguments were read, or while a file was opened.
    NoMemory,
}

impl Start {
    /// The line to write, with its line end.
    pub fn line(&self) -> &'static str
        ensures { result.now ≡ start_line self.now }
    {
        match *self {
            Start::Usage => "USAGE\n",
            Start::NoFormula => "DEVICE formula\n",
            Start::NoTrace => "DEVICE trace\n",
            Start::NoMemory => "NO MEMORY\n",
        }
    }

    /// The status to end with.
    pub fn status(&self) -> u8
        ensures { result ≡ start_status self.now }
    {
        match *self {
            Start::Usage => 5,
            Start::NoFormula | Start::NoTrace => 3,
            Start::NoMemory => 4,
        }
    }
}
