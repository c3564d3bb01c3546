// The replay by the grammar as a static library of its own, for C or Rust to call, so that the check's library has the steps of a run for itself alone (D179).
// include/leukarion.h declares it, and says what the name's version is.
#![tactic(auto)]

ghost use Rattle.leukarion_grammar_c.specs.GrammarOutcomes.{ReplayTold};

use outcomes::{Outcome, told};

// The answer to a program and a trace, read by the report's nonterminals V and M: that of the check, and the buffer as the check leaves it.
#[unsafe(no_mangle)]
pub extern "C" fn leukarion_replay_by_grammar_0_8(
    program: &[i32],
    witness: &[i32],
    buffer: &mut [i64],
) -> Outcome
    ensures { ReplayTold program.now witness.now buffer.old result buffer.new }
{
    told(replay::replay_by_grammar(program, witness, buffer))
}
