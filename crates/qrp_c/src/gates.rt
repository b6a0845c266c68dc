//! The exported functions on formulas of gates.

ghost use Rattle.std.specs.Prelude.{◌≡◌, ◌≢◌, ◌+◌, pos, drop};
ghost use Rattle.qrp_bytes.specs.Gates.{ClausesReturn, GatesHeadline, GatesReturn};
ghost use Rattle.qrp_bytes.specs.Gates.{GatesStrategyReturns, HoldsClauses, HoldsGatesWinner};

use qrp_bytes::{
    QrpVerdict, Wanted, encode_nothing, encode_truth, encode_unverified, gates_clauses_bytes,
    gates_strategy_bytes, gates_verify_bytes, put_text,
};
use qrp_check::Rules;
use std::alloc::Global;

/// Whether the trace in these bytes proves its result of the clauses of the formula of gates in
/// those, as `verify_question` returns it.
///
/// In C: `int32_t qrp_gates_verify(const void *formula, size_t formula_length, const void *trace,
/// size_t trace_length, bool any_pivot, struct qrp_verdict *out)`.
///
/// Writes the whole of `out`, and returns its status.
#[unsafe(no_mangle)]
pub extern "C" fn qrp_gates_verify(
    alloc: Global,
    formula: &[u8],
    trace: &[u8],
    any_pivot: bool,
    out: &mut QrpVerdict,
) -> i32
    ensures headline { GatesHeadline (record { any_pivot = any_pivot }) formula.now trace.now out.new }
    ensures verdict { GatesReturn (record { any_pivot = any_pivot }) formula.now trace.now out.new }
    ensures status { result ≡ pos out.new.status }
{
    let verdict = gates_verify_bytes(alloc, formula, trace, Rules { any_pivot });
    *out = verdict;
    i32::from(verdict.status)
}

/// The canonical text of the clauses of the formula of gates in these bytes, with a zero after it.
///
/// In C: `size_t qrp_gates_clauses(const void *formula, size_t formula_length, char *buffer, size_t
/// room, struct qrp_verdict *out)`.
///
/// Returns its length without the zero, and writes as `qrp_verdict_line` does. Writes to `out`
/// zeros, or the fault, and then the text is empty. For all bytes, if the length is not 0, they
/// spell a formula of gates, and the text is that of its clauses.
#[unsafe(no_mangle)]
pub extern "C" fn qrp_gates_clauses(
    alloc: Global,
    formula: &[u8],
    buffer: &mut [u8],
    out: &mut QrpVerdict,
) -> usize
    ensures headline { result ≢ 0 → HoldsClauses formula.now buffer.old buffer.new out.new result }
    ensures clauses { ClausesReturn formula.now buffer.old buffer.new out.new result }
    ensures kept { drop (1 + result) buffer.new ≡ drop (1 + result) buffer.old }
{
    match gates_clauses_bytes(alloc, formula) {
        Ok(text) => {
            *out = encode_nothing();
            put_text(buffer, text.bytes())
        }
        Err(fault) => {
            *out = encode_unverified(&fault);
            put_text(buffer, b"")
        }
    }
}

/// The whole strategy of the winner of a formula of gates as a circuit, in AIGER's binary or ASCII
/// format, with a zero after it, if the trace in these bytes proves its result of the clauses.
///
/// In C: `size_t qrp_gates_strategy(const void *formula, size_t formula_length, const void *trace,
/// size_t trace_length, bool any_pivot, bool binary, char *buffer, size_t room, struct qrp_verdict
/// *out)`.
///
/// Returns its length without the zero, and writes as `qrp_verdict_line` does. Writes to `out` what
/// `qrp_gates_verify` does. For all bytes of a formula and of a trace, if the length is not 0, `out`
/// says that the formula of gates is verified, and the text is that of a circuit by which the winner
/// wins. If `out` has a fault, or if no circuit is made, the text is empty.
#[unsafe(no_mangle)]
pub extern "C" fn qrp_gates_strategy(
    alloc: Global,
    formula: &[u8],
    trace: &[u8],
    any_pivot: bool,
    binary: bool,
    buffer: &mut [u8],
    out: &mut QrpVerdict,
) -> usize
    ensures headline { result ≢ 0
        → HoldsGatesWinner binary formula.now trace.now buffer.old buffer.new out.new result }
    ensures strategy { GatesStrategyReturns (record { any_pivot = any_pivot }) binary formula.now
        trace.now buffer.old buffer.new out.new result }
    ensures kept { drop (1 + result) buffer.new ≡ drop (1 + result) buffer.old }
{
    let wanted = Wanted {
        rules: Rules { any_pivot },
        binary,
    };
    match gates_strategy_bytes(alloc, formula, trace, wanted) {
        Ok((truth, text)) => {
            *out = encode_truth(truth);
            put_text(buffer, text.bytes())
        }
        Err(fault) => {
            *out = encode_unverified(&fault);
            put_text(buffer, b"")
        }
    }
}
