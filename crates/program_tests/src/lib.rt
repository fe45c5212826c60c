//! Tests of the programs' crates, for what a program's bytes can't show, and worked rows on other machines than the built-in one;
//! `rt ci program_tests` runs them. What an `assert!` says is only tested. Each test of `src/engine/refused_memory.rt` makes its call
//! twice: under `rt try --test --fail-alloc N` one of the two succeeds (`one_is_as_usual`).
#![tactic(auto)]

#[cfg(test)]
mod devices;
#[cfg(test)]
mod engine;
#[cfg(test)]
mod nethrywel;
