//! The arguments of the command line.

ghost use Rattle.std.specs.Prelude.{◌≡◌, ◌≢◌, ◌⊎◌, IfOk, IfErr, drop};
ghost use Rattle.std.specs.declared.io.ErrorKind.TheVariants.{OutOfMemory};
ghost use Rattle.std.specs.Vec.Iter.{into_iter_items};
ghost use Rattle.qrp_program.specs.declared.start.Start.TheVariants.{NoMemory, Usage};

use qrp_program::Start;
use std::alloc::Global;
use std::env;
use std::env::Args;
use std::io::ErrorKind;

/// The arguments without the first, which is the program's name.
fn words_after_name(alloc: Global, mut args: Args) -> Result<Vec<String>, Start>
    ensures words { IfOk result (λ words. words.items ≡ drop 1 (into_iter_items args)) }
    ensures refused { IfErr result (λ e. e ≡ NoMemory) }
{
    let mut words = Vec::new(alloc);
    let _name = args.next();
    while let Some(word) = args.next() {
        if words.push(word).is_err() {
            return Err(Start::NoMemory);
        }
    }
    Ok(words)
}

/// Why there are no arguments, by the kind of the error: out of memory, or one of them is not
/// UTF-8.
fn no_words(kind: ErrorKind) -> Start
    ensures memory { kind ≡ OutOfMemory → result ≡ NoMemory }
    ensures usage { kind ≢ OutOfMemory → result ≡ Usage }
{
    match kind {
        ErrorKind::OutOfMemory => Start::NoMemory,
        _ => Start::Usage,
    }
}

/// The arguments after the program's name.
///
/// # Errors
/// Out of memory, or one of them is not UTF-8.
pub fn given_words(rt: &HostRuntime) -> Result<Vec<String>, Start>
    ensures { IfErr result (λ e. (e ≡ NoMemory) ⊎ (e ≡ Usage)) }
{
    match env::args(rt) {
        Ok(args) => words_after_name(rt.alloc(), args),
        Err(error) => Err(no_words(error.kind())),
    }
}
