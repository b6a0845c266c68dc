//! Tests of traces and of the rules of a step through the public calls of their libraries: what no
//! clause says.
#![tactic(auto)]

#[cfg(test)]
mod rules;
#[cfg(test)]
mod traces;
