//! Tests of tokens, texts and formulas through the public calls of their libraries: what no clause
//! says.
#![tactic(auto)]

#[cfg(test)]
mod formula_files;
#[cfg(test)]
mod formulas;
#[cfg(test)]
mod numbers;
#[cfg(test)]
mod texts;
