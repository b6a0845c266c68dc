//! The meaning of each fault, in one sentence.

ghost use Rattle.std.specs.Prelude.{◌≡◌, ◌≤◌, [], map, get_or, length};
ghost use Rattle.std.specs.List.{AllByRecursion};
ghost use Rattle.qrp_report.specs.Meanings.{meaning};

use crate::refusal::Refusal;

/// The meaning of each fault of a formula's text, by its number; there is no F0.
pub const FORMULA: [&str; 10] = [
    "",
    "The formula could not be read.",
    "The header of the formula has a wrong word or number.",
    "The formula has a word that is not allowed at its place.",
    "The formula has a number out of range, or a variable above the number in its header.",
    "The formula binds a variable twice.",
    "The formula has a free variable.",
    "The formula ends inside its header, a quantifier set or a clause.",
    "The formula has more or fewer clauses than its header says.",
    "Out of memory: nothing is known.",
];

/// The meaning of each fault of a trace's text, by its number; there is no P0.
pub const TRACE: [&str; 10] = [
    "",
    "The trace could not be read.",
    "The header of the trace has a wrong word or number.",
    "The trace has a word that is not allowed at its place.",
    "The trace has a number out of range.",
    "The trace uses the number of a step twice.",
    "A step of the trace has a third antecedent.",
    "The trace ends before its result.",
    "The result of the trace is neither sat nor unsat.",
    "Out of memory: nothing is known.",
];

/// The meaning of each fault of a check, by its number; there is no C0, and the rule says that of
/// C6.
pub const CHECK: [&str; 6] = [
    "",
    "The trace has a variable in its sets that the formula does not bind.",
    "The trace gives a variable another quantifier than the formula.",
    "The trace lists a variable after one of a block further inside.",
    "The trace has no step without literals, so it proves nothing.",
    "Out of memory: nothing is known.",
];

/// The meaning of each fault of a step, by its number; there is no S0.
pub const STEP: [&str; 13] = [
    "",
    "The step holds both signs of a variable.",
    "The step holds a variable that the formula does not bind.",
    "An antecedent of the step is not the number of an earlier step.",
    "The step is a clause without antecedents, and no clean clause of the formula reduces to it.",
    "The step is a cube without antecedents, and some clean clause shares no literal with it.",
    "The step holds a literal that is not in its antecedent.",
    "The step leaves out a literal of its antecedent that is not reducible.",
    "The antecedents of the step do not clash.",
    "The antecedents of the step clash in several variables.",
    "The pivot of the step has the wrong quantifier.",
    "The step holds a literal that is not in the resolvent.",
    "The step leaves out a literal that is reducible neither in the resolvent nor in the parents.",
];

/// The sentence of this number in a table, or an empty text if there is no such number.
fn sentence(table: &[&'static str], number: u8) -> &'static str
    ensures is { result.now ≡ get_or (map (λ t. t.now) table.now) number [] }
    ensures short { AllByRecursion (λ t. length t.now ≤ 127) table.now → length result.now ≤ 127 }
{
    match table.get(usize::from(number)) {
        Some(text) => text,
        None => "",
    }
}

impl Refusal {
    /// The meaning of the fault, in one sentence of at most 127 bytes, or an empty text if there is
    /// no such fault.
    pub fn meaning(&self) -> &'static str
        ensures is { result.now ≡ meaning self.now }
        ensures short { length result.now ≤ 127 }
    {
        match (self.letter, self.number) {
            (b'F', number) => sentence(&FORMULA, number),
            (b'P', number) => sentence(&TRACE, number),
            (b'C', 6) => sentence(&STEP, self.rule),
            (b'C', number) => sentence(&CHECK, number),
            (_, _) => "",
        }
    }
}
