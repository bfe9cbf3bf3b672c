// Stores of rows: what every store promises, and what is asked of a store by a predicate.
#![tactic(auto)]

pub mod ascending;
pub mod few_rows;
pub mod one_place;
pub mod scans;
pub mod store;
