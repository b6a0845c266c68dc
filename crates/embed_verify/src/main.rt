//! How a program takes a verdict: a formula and a trace from memory, here two constants.
#![tactic(auto)]

ghost use Rattle.std.specs.Prelude.{◌≡◌, codes, if◌then◌else◌, IfOk, OnErr};

use qbf_text::SliceSource;
use qrp_check::{Fault, Rules, Verified, verify};
use std::io::Write;
use std::process::ExitCode;

const FORMULA: &[u8] = b"p cnf 2 2\ne 1 0\na 2 0\n1 2 0\n-1 2 0\n";

const TRACE: &[u8] =
    b"p qrp 2 5\n1 1 2 0 0\n2 -1 2 0 0\n3 1 0 1 0\n4 -1 0 2 0\n5 0 3 4 0\nr unsat\n";

/// The line that the program writes for a verdict.
fn message_of(verdict: &Result<Verified, Fault>) -> &'static [u8]
    ensures truth { IfOk verdict.now (λ v.
        result.now
        ≡ (if v.truth then codes "the formula is true\n" else codes "the formula is false\n")) }
    ensures none { OnErr verdict.now (result.now ≡ codes "no verdict\n") }
{
    match verdict {
        Ok(verified) if verified.truth => b"the formula is true\n",
        Ok(_) => b"the formula is false\n",
        Err(_) => b"no verdict\n",
    }
}

fn main(rt: HostRuntime) -> ExitCode {
    let mut formula = SliceSource::new(FORMULA);
    let mut trace = SliceSource::new(TRACE);
    let verdict = verify(rt.alloc(), &mut formula, &mut trace, Rules::plain());
    match rt.stdout().write_all(message_of(&verdict)) {
        Ok(()) => ExitCode::from(0),
        Err(_) => ExitCode::from(3),
    }
}
