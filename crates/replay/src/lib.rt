// The replay of a trace: tests 4 and 9, the steps with tests 10, 12, 14 and 11, then 14 for entry values left over, and 13 last.
#![tactic(auto)]

ghost use Rattle.std.specs.Prelude.{◌≡◌, length};
ghost use Rattle.answers.specs.Answers.{answer_of};
ghost use Rattle.checker.specs.Check.{replayed, buffer_after};
ghost use Rattle.traces.specs.Replay.{final_values, trace_answer};
ghost use Rattle.run_state.specs.State.{Formed};
ghost use Rattle.trace_steps.specs.Results.{front_count};

use answers::Answer;
use program_readers::places::Sizes;
use trace_steps::results::Counted;
use trace_steps::{results, starts};

mod runs;

// The answer to a trace of a program that has the form, whose steps are read with the open calls of a run's state, or by the grammar. Which of the two it
// is goes as a Boolean: an enum is passed by its place, and the compiler then doesn't see that a caller has one reading alone.
fn replay_formed(
    program: &[i32],
    sizes: Sizes,
    witness: &[i32],
    buffer: &mut [i64],
    by_grammar: bool,
) -> Counted
    requires { Formed program.now sizes }
    ensures answer_value { answer_of result.answer ≡ trace_answer program.now witness.now (length buffer.old) }
    ensures buffer_after { buffer.new ≡ buffer_after program.now witness.now (answer_of result.answer) buffer.old }
    ensures count_value { result.count ≡ front_count (final_values program.now witness.now) (answer_of result.answer) }
{
    if let Err(refusal) = starts::trace_tested(program, sizes, witness) {
        return results::refused(refusal);
    }
    let steps = reading::number_at(witness, 1, starts::MOST_STEPS);
    let mut globals = [0i64; 8];
    let mut frames = [0i64; 640];
    let ran = runs::run(
        program,
        sizes,
        witness,
        steps,
        &mut globals,
        &mut frames,
        by_grammar,
    );
    let end = ran.end;
    match end {
        Ok(()) => results::conclude(
            program, sizes, witness, &globals, &frames, ran, steps, buffer,
        ),
        Err(refusal) => results::refused(refusal),
    }
}

// The answer to a program and a trace, and how many values it leaves at the buffer's front, in either reading.
fn read_counted(program: &[i32], witness: &[i32], buffer: &mut [i64], by_grammar: bool) -> Counted
    ensures answer_value { answer_of result.answer ≡ replayed program.now witness.now (length buffer.old) }
    ensures buffer_after { buffer.new ≡ buffer_after program.now witness.now (answer_of result.answer) buffer.old }
    ensures count_value { result.count ≡ front_count (final_values program.now witness.now) (answer_of result.answer) }
{
    let mut owners = [0usize; 1025];
    let form = program_form::program_tested(program, &mut owners);
    match form {
        Ok(sizes) => replay_formed(program, sizes, witness, buffer, by_grammar),
        Err(refusal) => results::refused(refusal),
    }
}

// The answer to a program and a trace, and how many values it leaves at the buffer's front.
pub fn replay_counted(program: &[i32], witness: &[i32], buffer: &mut [i64]) -> Counted
    ensures answer_value { answer_of result.answer ≡ replayed program.now witness.now (length buffer.old) }
    ensures buffer_after { buffer.new ≡ buffer_after program.now witness.now (answer_of result.answer) buffer.old }
    ensures count_value { result.count ≡ front_count (final_values program.now witness.now) (answer_of result.answer) }
{
    read_counted(program, witness, buffer, false)
}

// The answer to a program and a trace. After an accepted trace the buffer's front holds the values at the failed assertion.
pub fn replay(program: &[i32], witness: &[i32], buffer: &mut [i64]) -> Answer
    ensures result_value { answer_of result ≡ replayed program.now witness.now (length buffer.old) }
    ensures buffer_after { buffer.new ≡ buffer_after program.now witness.now (answer_of result) buffer.old }
{
    let counted = replay_counted(program, witness, buffer);
    counted.answer
}

// The answer to a program and a trace, read by the grammar: that of `replay`, and the buffer as `replay` leaves it.
pub fn replay_by_grammar(program: &[i32], witness: &[i32], buffer: &mut [i64]) -> Answer
    ensures result_value { answer_of result ≡ replayed program.now witness.now (length buffer.old) }
    ensures buffer_after { buffer.new ≡ buffer_after program.now witness.now (answer_of result) buffer.old }
{
    let read = read_counted(program, witness, buffer, true);
    read.answer
}
