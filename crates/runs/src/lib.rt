// Runs: the calls of a transcript made one after the other, and what every run of a fresh keeper amounts to.
#![tactic(auto)]

pub mod running;
mod steps;
