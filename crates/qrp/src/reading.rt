//! Traces that are read as a whole.

ghost use Rattle.std.specs.Prelude.{IfSome, IfOk};
ghost use Rattle.qbf_text.specs.Stopping.{IfKnown};
ghost use Rattle.qbf_tokens.specs.Tokens.{tokens};
ghost use Rattle.qbf_text.specs.WholeTexts.{TellsFailures};
ghost use Rattle.qbf_tokens.specs.declared.token.Comments.TheVariants.{Qrp};
ghost use Rattle.qrp.specs.declared.fault.TraceFault.TheVariants.{P1, P9};
ghost use Rattle.qrp.specs.Returns.{reads_bytes, IsReadAs, Gives, ReadsTrace, StopsAfterResult};

use crate::fault::TraceFault;
use crate::whole_trace::read_parts;
use qbf_text::Source;
use std::alloc::Global;
use trace_items::{CompactTrace, Trace};

/// Reads a trace in the text form of QRP, the format of QBFcert's tools: up to the end of the
/// result word. The bytes after that word are not looked at.
///
/// Header numbers are kept, and no rule rests on them. Empty sets and repeated variables are kept,
/// and steps as written: their numbers are 1 to 18446744073709551615, distinct, in any order and
/// with gaps.
///
/// # Errors
/// P1 exactly if the source failed during the call, P9 only if an allocation failed, both with line
/// 0. Otherwise P2 to P8 as they are listed, with the line of the first token that is not accepted.
#[tactic(auto, using(crate::proofs::ReadingLaws::given_results))]
pub fn read_trace<S: Source>(alloc: Global, source: &mut S) -> Result<Trace, (TraceFault, u64)>
    // The trace if the bytes spell one, else the first fault.
    ensures reads { IfSome (S.remaining source.old) (λ bytes. IsReadAs (tokens Qrp bytes) result) }
    // The result is that of the function `reads_bytes`.
    ensures exact { Gives result (reads_bytes (S.remaining source.old)) }
    // Nothing is read past the result word but a separator and the buffered bytes, which are at
    // most 4,096.
    ensures stops { IfOk result
        (λ d. IfKnown (StopsAfterResult d) (S.remaining source.old) (S.remaining source.new)) }
    // P1 exactly if the source failed; P1 and P9 stand on line 0.
    ensures devices { TellsFailures P1 P9 (S.failures source.old) (S.failures source.new) result }
{
    let (parts, outcome) = read_parts(alloc, source)?;
    match Trace::of_parts(parts, outcome) {
        Ok(trace) => Ok(trace),
        Err(_) => Err((TraceFault::P9, 0)),
    }
}

/// Reads a trace as `read_trace` does.
///
/// # Errors
/// As of `read_trace`.
pub fn read_compact<S: Source>(
    alloc: Global,
    source: &mut S,
) -> Result<CompactTrace, (TraceFault, u64)>
    ensures { ReadsTrace (S.remaining source.old) (S.remaining source.new)
        (S.failures source.old) (S.failures source.new) result }
{
    let (parts, result) = read_parts(alloc, source)?;
    Ok(CompactTrace::of_parts(parts, result))
}
