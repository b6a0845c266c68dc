//! The canonical text of a formula, from the bytes that a caller lends.

ghost use Rattle.std.specs.Prelude.{◌≡◌, Ok, Err, IfOk, IfErr};
ghost use Rattle.qbf_core.specs.Qbf.{Qbf};
ghost use Rattle.qdimacs.specs.Grammar.{text};
ghost use Rattle.qrp_report.specs.Results.{IsFormulaRead};
ghost use Rattle.qrp_bytes.specs.Texts.{lent_bytes};

use qbf_core::Formula;
use qbf_text::{SliceSource, VecSink};
use qdimacs::{FormulaFault, read_formula, write_formula};
use std::alloc::{AllocError, Global};

/// The canonical text of a formula.
///
/// # Errors
/// If an allocation fails.
pub(crate) fn formula_text(alloc: Global, formula: &Formula) -> Result<VecSink, AllocError>
    ensures { IfOk result (λ s. s.bytes ≡ text formula.now) }
{
    let mut sink = VecSink::new(alloc, 0)?;
    match write_formula(formula, &mut sink) {
        Ok(()) => Ok(sink),
        Err(_) => Err(AllocError),
    }
}

/// The canonical text of the formula in these bytes.
///
/// # Errors
/// The first fault of the text with its line, or F9 if an allocation fails.
pub fn format_bytes(alloc: Global, formula: &[u8]) -> Result<VecSink, (FormulaFault, u64)>
    ensures ok { IfOk result (λ s. (f : Qbf) × IsFormulaRead (lent_bytes formula.now) (Ok f)
        × (s.bytes ≡ text f)) }
    ensures err { IfErr result (λ e. IsFormulaRead (lent_bytes formula.now) (Err e)) }
{
    let mut source = SliceSource::new(formula);
    let read = read_formula(alloc, &mut source)?;
    match formula_text(alloc, &read) {
        Ok(text) => Ok(text),
        Err(_) => Err((FormulaFault::F9, 0)),
    }
}
