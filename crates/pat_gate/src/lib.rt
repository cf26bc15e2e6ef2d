//! Patterns over texts, in the syntax of the `regex` crate, and who makes them. Probes stand on it.
#![tactic(auto)]

mod compiled;
mod engine;
mod form;
mod list_maker;
mod make_fault;
mod pattern_maker;
mod plain;
mod regex_maker;
mod searcher;
mod shared_engine;
#[cfg(test)]
mod tests;

pub use compiled::Compiled;
pub use list_maker::ListMaker;
pub use make_fault::MakeFault;
pub use pattern_maker::PatternMaker;
pub use regex_maker::RegexMaker;
