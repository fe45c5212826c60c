//! Tests of the layers below the core for what no scenario shows; `rt ci layer_tests` runs them. The replies to scripts and sessions
//! are cases (`cases/engine`). A test is proved like any function; what an `assert!` says is only tested. Example:
//! `boots_at_its_least_and_most` boots pools of 0 and of 4096 pages.
#![tactic(auto)]

#[cfg(test)]
mod accounts;
#[cfg(test)]
mod best_fit;
#[cfg(test)]
mod heaps;
#[cfg(test)]
mod pages;
#[cfg(test)]
mod regions;
#[cfg(test)]
mod selectors;
#[cfg(test)]
mod texts;
#[cfg(test)]
#[tactic(auto, using(crate::proofs::MemoryLemmas::store_laws))]
mod words;
