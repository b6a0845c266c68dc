//! Tests of formulas of gates through the public calls of their libraries: what no clause says.
#![tactic(auto)]

#[cfg(test)]
mod clauses;
#[cfg(test)]
mod damaged;
#[cfg(test)]
mod strategies;
#[cfg(test)]
mod texts;
#[cfg(test)]
mod verdicts;
