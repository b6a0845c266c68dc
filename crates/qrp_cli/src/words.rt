//! The arguments of the command line.

ghost use Rattle.std.specs.Prelude.{map, IfSome, IfNone, ◌<◌, length};
ghost use Rattle.std.specs.String.{string_bytes};
ghost use Rattle.qrp_cli.specs.Words.{IsRow, Texts, HasTexts};
ghost use Rattle.qrp_cli.specs.declared.job.Job.{Job};
ghost use Rattle.qrp_program.specs.Words.{Request};

use crate::job::Job;
use qrp_check::Rules;
use qrp_program::is_word;

/// The rules and the places of a formula and a trace among the arguments, counted from 0, if these are
/// this command on the two: before or after the files the flag `--qu` may stand.
pub fn texts(words: &[String], command: &str) -> Option<(Rules, usize, usize)>
    ensures row { IfSome result (λ r. HasTexts command.now (map (λ w. string_bytes w) words.now)
        (record { rules = r.0; formula = r.1; trace = r.2 })) }
    ensures within { IfSome result (λ r. (r.1 < length words.now) × (r.2 < length words.now)) }
    ensures none { IfNone result
        ((t : Texts) → HasTexts command.now (map (λ w. string_bytes w) words.now) t → ⊥) }
{
    match words {
        [first, _, _] if is_word(first, command) => Some((Rules::plain(), 1, 2)),
        [first, flag, _, _] if is_word(first, command) && is_word(flag, "--qu") => {
            Some((Rules::any_pivot(), 2, 3))
        }
        [first, _, _, flag] if is_word(first, command) && is_word(flag, "--qu") => {
            Some((Rules::any_pivot(), 1, 2))
        }
        _ => None,
    }
}

/// The job and the places of its formula and its trace among the arguments, counted from 0, if the
/// arguments are a command line of the usage: `check` and `trim` with a formula and a trace, before
/// or after which the flag `--qu` may stand, and `format` with a formula.
pub fn request(words: &[String]) -> Option<(Job, usize, Option<usize>)>
    ensures row { IfSome result (λ r. IsRow (map (λ w. string_bytes w) words.now)
        (record { job = r.0; formula = r.1; trace = r.2 })) }
    ensures within { IfSome result
        (λ r. (r.1 < length words.now) × IfSome r.2 (λ t. t < length words.now)) }
    ensures none { IfNone result
        ((r : Request Job) → IsRow (map (λ w. string_bytes w) words.now) r → ⊥) }
{
    if let Some((rules, formula, trace)) = texts(words, "check") {
        return Some((Job::Check(rules), formula, Some(trace)));
    }
    if let Some((rules, formula, trace)) = texts(words, "trim") {
        return Some((Job::Trim(rules), formula, Some(trace)));
    }
    match words {
        [command, _] if is_word(command, "format") => Some((Job::Format, 1, None)),
        [..] => None,
    }
}
