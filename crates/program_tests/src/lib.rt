//! Tests of checks, runs and programs through the public calls of their libraries: what no clause
//! says.
#![tactic(auto)]

#[cfg(test)]
mod checks;
#[cfg(test)]
mod programs;
#[cfg(test)]
mod runs;
