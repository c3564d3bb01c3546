// What every replay of a trace is made of: tests 4 and 9 and the start state, a step to the vertex listed next, and the result at the end.
// Functions are public for the crates above.
#![tactic(auto)]

pub mod results;
pub mod starts;
pub mod steps;
