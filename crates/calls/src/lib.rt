// The keeper's calls and answers; in specs/, what each call answers and makes of keeper, lists and store, and what every
// run of calls amounts to.
#![tactic(auto)]

pub mod data;
pub mod examples;
pub mod lock_answer;
pub mod shown;
pub mod transcript;
