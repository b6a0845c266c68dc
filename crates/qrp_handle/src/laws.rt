//! Laws of the texts that are written of what was handed over.

ghost use Rattle.qrp_handle.specs.Alike.{FailsAlike, ProvesAlike};

/// Two laws. The trace that is written proves its result of the formula that is written exactly if
/// the steps prove it of the formula that was handed over. If not, the first fault is the same.
#[tactic(auto, using(crate::proofs::SameVerdict::alike_laws))]
pub fn written_laws()
    ensures proves { ProvesAlike }
    ensures fails { FailsAlike }
{}
