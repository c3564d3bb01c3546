// A trace read by the report's grammar: V → ε | M V | ⟨call, i, δ⟩ V (`paths`) and M → ε | σ | M M | ⟨call, i, δ⟩ M ⟨ret, i, δ⟩ (`levels`), each
// on fewer remaining vertices. No return looks for its caller among the open calls: the function that read the call reads its return.
#![tactic(auto)]

pub mod levels;
pub mod paths;
pub mod returns;
pub mod turns;
