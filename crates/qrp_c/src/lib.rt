//! The library for C, `libqrp`, with the header `include/qrp_check.h`: its exported functions
//! alone.
//!
//! - Owns: the exported functions of the library for C, C++ and Python.
//! - Offers: the functions of `include/qrp_check.h`.
//! - Proved: the headline over the bytes lent, each field of the struct, the line, the meaning, the
//!   trimmed trace, the core, the text of a circuit by which the winner wins and the canonical
//!   formula in the buffer; of a formula of gates the same headline, its clauses and its winner's
//!   circuit; of a proof that is handed over, what each call adds or refuses, the verdict on what is
//!   held, and the texts of it in the buffer.
//! - Read first: `qrp_verify`, `qrp_verdict_line`, `qrp_fault_text`, `qrp_trim`, `qrp_core`,
//!   `qrp_strategy`, `qrp_format`, `qrp_gates_verify`, `qrp_gates_clauses`, `qrp_gates_strategy`,
//!   `qrp_proof_check`, `qrp_proof_write_formula`, `qrp_proof_write_trace`.
//! - Tested only: over the built library: rows and real traces by each call from C and from Python,
//!   each allocation made to fail, texts at each alignment and buffers of each size between pages
//!   that cannot be read, eight threads, structs that no call wrote, the structs, names and version
//!   of the header; rows and real traces handed over piece by piece; random orders of these calls.
//! - Trusted: the demands of `include/qrp_check.h` on the caller; malloc, realloc and free.
//! - On the map: the library for C, C++ and Python.
#![tactic(auto)]

mod gates;
mod proof;
mod texts;

ghost use Rattle.std.specs.Prelude.{◌≡◌, ◌≢◌, ◌≤◌, ◌+◌, [], pos, drop, Bool, Result};
ghost use Rattle.trace_check.specs.declared.verified.Verified.{Verified};
ghost use Rattle.qrp_check.specs.declared.verdict.Fault.{Fault};
ghost use Rattle.qrp_report.specs.Meanings.{fault_meaning};
ghost use Rattle.qrp_report.specs.OfFaults.{NamesVariable};
ghost use Rattle.gate_report.specs.Meanings.{unverified_meaning};
ghost use Rattle.gate_verify.specs.declared.fault.Unverified.{Unverified};
ghost use Rattle.qrp_bytes.specs.Buffers.{IsWritten};
ghost use Rattle.qrp_bytes.specs.Encoding.{IsEncoded, EncodesSome, EncodesFault, encoded_fault, result_line};
ghost use Rattle.qrp_bytes.specs.Encoding.{IsGatesEncoded, NamesItsVariable, checked_line, encoded_unverified};
ghost use Rattle.qrp_bytes.specs.Strategies.{HoldsWinner, StrategyReturns};
ghost use Rattle.qrp_bytes.specs.Texts.{TrimReturns, CoreReturns, FormatReturns};
ghost use Rattle.qrp_bytes.specs.Verdicts.{StructHeadline, VerifyReturns};

use qrp_bytes::{
    QrpVerdict, Wanted, encode_fault, encode_nothing, encode_truth, format_bytes, line_of,
    list_core, meaning_of, put_numbers, put_text, strategy_bytes, trim_bytes, verify_bytes,
};
use qrp_check::{Fault, Rules};
use std::alloc::Global;

/// Whether the trace in these bytes proves its result of the formula in those, as `verify` returns
/// it.
///
/// In C: `int32_t qrp_verify(const uint8_t *formula, size_t formula_length, const uint8_t *trace,
/// size_t trace_length, bool any_pivot, struct qrp_verdict *out)`.
///
/// Writes the whole of `out`, and returns its status.
#[unsafe(no_mangle)]
pub extern "C" fn qrp_verify(
    alloc: Global,
    formula: &[u8],
    trace: &[u8],
    any_pivot: bool,
    out: &mut QrpVerdict,
) -> i32
    ensures headline { StructHeadline (record { any_pivot = any_pivot }) formula.now trace.now out.new }
    ensures verdict { VerifyReturns (record { any_pivot = any_pivot }) formula.now trace.now out.new }
    ensures status { result ≡ pos out.new.status }
{
    let verdict = verify_bytes(alloc, formula, trace, Rules { any_pivot });
    *out = verdict;
    i32::from(verdict.status)
}

/// The line of a verdict, as the program prints it, with its line end and a zero after it.
///
/// In C: `size_t qrp_verdict_line(const struct qrp_verdict *verdict, char *buffer, size_t room)`.
///
/// Returns its length without the zero, 47 at most. If the buffer has room for it and the zero,
/// they stand at its front, and the rest of the buffer stays as it was; else all of it stays. A
/// struct that is not the encoding of any result, such as one of zeros, has the empty line.
#[unsafe(no_mangle)]
pub extern "C" fn qrp_verdict_line(verdict: &QrpVerdict, buffer: &mut [u8]) -> usize
    ensures encoded { (outcome : Result Verified Fault) → IsEncoded outcome verdict.now
        → IsWritten (result_line outcome) buffer.old buffer.new result }
    ensures gates { (outcome : Result Bool Unverified) → IsGatesEncoded outcome verdict.now
        → IsWritten (checked_line outcome) buffer.old buffer.new result }
    ensures none { ¬ EncodesSome verdict.now → IsWritten [] buffer.old buffer.new result }
    ensures short { result ≤ 47 }
    // For any struct.
    ensures kept { drop (1 + result) buffer.new ≡ drop (1 + result) buffer.old }
{
    put_text(buffer, line_of(verdict).as_slice())
}

/// The meaning of the fault of a verdict, in one sentence, with a zero after it.
///
/// In C: `size_t qrp_fault_text(const struct qrp_verdict *verdict, char *buffer, size_t room)`.
///
/// Returns its length without the zero, 127 at most, and writes as `qrp_verdict_line` does. A
/// struct that encodes no fault has the empty text.
#[unsafe(no_mangle)]
pub extern "C" fn qrp_fault_text(verdict: &QrpVerdict, buffer: &mut [u8]) -> usize
    ensures encoded { (e : Fault) → NamesVariable e → verdict.now ≡ encoded_fault e
        → IsWritten (fault_meaning e) buffer.old buffer.new result }
    ensures gates { (e : Unverified) → NamesItsVariable e → verdict.now ≡ encoded_unverified e
        → IsWritten (unverified_meaning e) buffer.old buffer.new result }
    ensures none { ¬ EncodesFault verdict.now → IsWritten [] buffer.old buffer.new result }
    ensures short { result ≤ 127 }
    ensures kept { drop (1 + result) buffer.new ≡ drop (1 + result) buffer.old }
{
    put_text(buffer, meaning_of(verdict).as_bytes())
}

/// The trace in these bytes with only the steps that its proof needs, in canonical form, with a
/// zero after it, if it proves its result of the formula.
///
/// In C: `size_t qrp_trim(const void *formula, size_t formula_length, const void *trace, size_t
/// trace_length, bool any_pivot, char *buffer, size_t room, struct qrp_verdict *out)`.
///
/// Returns its length without the zero, and writes as `qrp_verdict_line` does. Writes to `out` what
/// `qrp_verify` does; if that is a fault, the text is empty.
#[unsafe(no_mangle)]
pub extern "C" fn qrp_trim(
    alloc: Global,
    formula: &[u8],
    trace: &[u8],
    any_pivot: bool,
    buffer: &mut [u8],
    out: &mut QrpVerdict,
) -> usize
    ensures trims { TrimReturns (record { any_pivot = any_pivot }) formula.now trace.now
        buffer.old buffer.new out.new result }
    ensures kept { drop (1 + result) buffer.new ≡ drop (1 + result) buffer.old }
{
    match trim_bytes(alloc, formula, trace, Rules { any_pivot }) {
        Ok((truth, text)) => {
            *out = encode_truth(truth);
            put_text(buffer, text.bytes())
        }
        Err(fault) => {
            *out = encode_fault(&fault);
            put_text(buffer, b"")
        }
    }
}

/// The numbers of the steps that the proof in these bytes needs, in the order of the trace, if it
/// proves its result of the formula.
///
/// In C: `size_t qrp_core(const void *formula, size_t formula_length, const void *trace, size_t
/// trace_length, bool any_pivot, uint64_t *steps, size_t room, struct qrp_verdict *out)`.
///
/// Returns how many they are. If `steps` has room for all of them they stand at its front, and the
/// rest stays as it was; else all of it stays. Writes to `out` what `qrp_verify` does; if that is a
/// fault, there are none.
#[unsafe(no_mangle)]
pub extern "C" fn qrp_core(
    alloc: Global,
    formula: &[u8],
    trace: &[u8],
    any_pivot: bool,
    steps: &mut [u64],
    out: &mut QrpVerdict,
) -> usize
    ensures lists { CoreReturns (record { any_pivot = any_pivot }) formula.now trace.now
        steps.old steps.new out.new result }
    ensures kept { drop result steps.new ≡ drop result steps.old }
{
    match list_core(alloc, formula, trace, Rules { any_pivot }) {
        Ok((truth, numbers)) => {
            *out = encode_truth(truth);
            put_numbers(steps, &numbers)
        }
        Err(fault) => {
            *out = encode_fault(&fault);
            0
        }
    }
}

/// The winner's whole strategy as a circuit, in AIGER's binary or ASCII format, with a zero after
/// it, if the trace in these bytes proves its result of the formula.
///
/// In C: `size_t qrp_strategy(const void *formula, size_t formula_length, const void *trace, size_t
/// trace_length, bool any_pivot, bool binary, char *buffer, size_t room, struct qrp_verdict *out)`.
///
/// Returns its length without the zero, and writes as `qrp_verdict_line` does. Writes to `out` what
/// `qrp_verify` does. For all formula and trace bytes, if the length is not 0, `out` says that the
/// formula is verified, and the text is that of a circuit by which the winner wins. If `out` has a
/// fault, or if no circuit is made, the text is empty.
#[unsafe(no_mangle)]
pub extern "C" fn qrp_strategy(
    alloc: Global,
    formula: &[u8],
    trace: &[u8],
    any_pivot: bool,
    binary: bool,
    buffer: &mut [u8],
    out: &mut QrpVerdict,
) -> usize
    ensures headline { result ≢ 0
        → HoldsWinner binary formula.now trace.now buffer.old buffer.new out.new result }
    ensures strategy { StrategyReturns (record { any_pivot = any_pivot }) binary formula.now
        trace.now buffer.old buffer.new out.new result }
    ensures kept { drop (1 + result) buffer.new ≡ drop (1 + result) buffer.old }
{
    let wanted = Wanted {
        rules: Rules { any_pivot },
        binary,
    };
    match strategy_bytes(alloc, formula, trace, wanted) {
        Ok((truth, text)) => {
            *out = encode_truth(truth);
            put_text(buffer, text.bytes())
        }
        Err(fault) => {
            *out = encode_fault(&fault);
            put_text(buffer, b"")
        }
    }
}

/// The canonical text of the formula in these bytes, with a zero after it.
///
/// In C: `size_t qrp_format(const void *formula, size_t formula_length, char *buffer, size_t room,
/// struct qrp_verdict *out)`.
///
/// Returns its length without the zero, and writes as `qrp_verdict_line` does. Writes to `out`
/// zeros, or the fault, and then the text is empty.
#[unsafe(no_mangle)]
pub extern "C" fn qrp_format(
    alloc: Global,
    formula: &[u8],
    buffer: &mut [u8],
    out: &mut QrpVerdict,
) -> usize
    ensures formats { FormatReturns formula.now buffer.old buffer.new out.new result }
    ensures kept { drop (1 + result) buffer.new ≡ drop (1 + result) buffer.old }
{
    match format_bytes(alloc, formula) {
        Ok(text) => {
            *out = encode_nothing();
            put_text(buffer, text.bytes())
        }
        Err((fault, line)) => {
            *out = encode_fault(&Fault::Formula(fault, line));
            put_text(buffer, b"")
        }
    }
}

/// The version of the library: 10000 times the first number, 100 times the second, and the third.
///
/// In C: `uint32_t qrp_version(void)`.
#[unsafe(no_mangle)]
pub extern "C" fn qrp_version() -> u32
    ensures { result ≡ 10000 }
{
    10000
}
