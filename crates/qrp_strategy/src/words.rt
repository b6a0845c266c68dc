//! The arguments of the command line.

ghost use Rattle.std.specs.Prelude.{◌≡◌, ◌<◌, ◌↔◌, map, IfSome, IfNone, IsTrue, length};
ghost use Rattle.std.specs.String.{string_bytes};
ghost use Rattle.qrp_strategy.specs.Words.{IsFlag, IsRow, files_at};
ghost use Rattle.qrp_strategy.specs.declared.task.Task.{Task};
ghost use Rattle.qrp_program.specs.Words.{Request};

use crate::task::Task;
use circuit_cli::are_both_flags;
use qrp_check::Rules;
use qrp_program::is_word;

/// What is asked for, if the files stand from this place on.
fn asked(rules: Rules, binary: bool, formula: usize) -> (Task, usize, Option<usize>)
    requires { formula < 3 }
    ensures { ◌≡◌ {A = Request Task} (record { job = result.0; formula = result.1; trace = result.2 })
        (files_at rules binary formula) }
{
    (Task { rules, binary }, formula, Some(formula + 1))
}

/// Whether the word is none of the flags.
fn is_file(word: &String) -> bool
    ensures { IsTrue result ↔ (IsFlag (string_bytes word.now) → ⊥) }
{
    if is_word(word, "--qu") {
        return false;
    }
    !is_word(word, "--binary")
}

/// What the arguments ask for, and the places of the formula and the trace among them, counted from
/// 0, if they are a command line of the usage: a formula and a trace, and before them none of the
/// flags `--qu` and `--binary`, one, or both in any order.
pub fn request(words: &[String]) -> Option<(Task, usize, Option<usize>)>
    ensures row { IfSome result (λ r. IsRow (map (λ w. string_bytes w) words.now)
        (record { job = r.0; formula = r.1; trace = r.2 })) }
    ensures within { IfSome result
        (λ r. (r.1 < length words.now) × IfSome r.2 (λ t. t < length words.now)) }
    ensures none { IfNone result
        ((r : Request Task) → IsRow (map (λ w. string_bytes w) words.now) r → ⊥) }
{
    match words {
        [first, _] if is_file(first) => Some(asked(Rules::plain(), false, 0)),
        [flag, _, _] if is_word(flag, "--qu") => Some(asked(Rules::any_pivot(), false, 1)),
        [flag, _, _] if is_word(flag, "--binary") => Some(asked(Rules::plain(), true, 1)),
        [first, second, _, _] if are_both_flags(first, second) => {
            Some(asked(Rules::any_pivot(), true, 2))
        }
        _ => None,
    }
}
