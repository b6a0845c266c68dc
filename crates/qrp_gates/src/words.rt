//! The arguments of the command line.

ghost use Rattle.std.specs.Prelude.{map, IfSome, IfNone, ◌<◌, length};
ghost use Rattle.std.specs.String.{string_bytes};
ghost use Rattle.qrp_cli.specs.Words.{Texts};
ghost use Rattle.qrp_gates.specs.Words.{HasBinaryTexts, IsRow};
ghost use Rattle.qrp_gates.specs.declared.job.Job.{Job};
ghost use Rattle.qrp_program.specs.Words.{Request};

use crate::job::Job;
use circuit_cli::are_both_flags;
use qrp_check::Rules;
use qrp_cli::texts;
use qrp_program::is_word;

/// The rules and the places of a formula of gates and a trace among the arguments, counted from 0, if
/// these are `strategy` on the two, after the flag `--binary`, with `--qu` before or after it or without
/// that.
fn binary_texts(words: &[String]) -> Option<(Rules, usize, usize)>
    ensures row { IfSome result (λ r. HasBinaryTexts (map (λ w. string_bytes w) words.now)
        (record { rules = r.0; formula = r.1; trace = r.2 })) }
    ensures within { IfSome result (λ r. (r.1 < length words.now) × (r.2 < length words.now)) }
    ensures none { IfNone result
        ((t : Texts) → HasBinaryTexts (map (λ w. string_bytes w) words.now) t → ⊥) }
{
    match words {
        [command, flag, _, _] if is_word(command, "strategy") && is_word(flag, "--binary") => {
            Some((Rules::plain(), 2, 3))
        }
        [command, first, second, _, _]
            if is_word(command, "strategy") && are_both_flags(first, second) => {
            Some((Rules::any_pivot(), 3, 4))
        }
        _ => None,
    }
}

/// The job and the places of its formula of gates and its trace among the arguments, counted from
/// 0, if the arguments are a command line of the usage: `clauses` with a formula of gates, and
/// `check` and `strategy` with a formula of gates and a trace, before or after which the flag `--qu`
/// may stand; for `strategy` also the flag `--binary` before them, alone or beside `--qu`.
pub fn request(words: &[String]) -> Option<(Job, usize, Option<usize>)>
    ensures row { IfSome result (λ r. IsRow (map (λ w. string_bytes w) words.now)
        (record { job = r.0; formula = r.1; trace = r.2 })) }
    ensures within { IfSome result
        (λ r. (r.1 < length words.now) × IfSome r.2 (λ t. t < length words.now)) }
    ensures none { IfNone result
        ((r : Request Job) → IsRow (map (λ w. string_bytes w) words.now) r → ⊥) }
{
    if let Some((rules, formula, trace)) = texts(words, "check") {
        return Some((Job::Check(rules), formula, Some(trace)));
    }
    if let Some((rules, formula, trace)) = binary_texts(words) {
        return Some((Job::Strategy(rules, true), formula, Some(trace)));
    }
    if let Some((rules, formula, trace)) = texts(words, "strategy") {
        return Some((Job::Strategy(rules, false), formula, Some(trace)));
    }
    match words {
        [command, _] if is_word(command, "clauses") => Some((Job::Clauses, 1, None)),
        [..] => None,
    }
}
