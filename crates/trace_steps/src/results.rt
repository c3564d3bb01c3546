// The result of a replay that came to its end: test 14 for entry values left over, test 13, and the values into the buffer's front.
ghost use Rattle.std.specs.Prelude.{◌≡◌, ◌≤◌, length};
ghost use Rattle.traces.specs.TraceWords.{listed_entry_values};
ghost use Rattle.traces.specs.TraceForm.{TraceForm};
ghost use Rattle.answers.specs.Answers.{answer_of};
ghost use Rattle.run_state.specs.State.{Formed, Proper};
ghost use Rattle.trace_steps.specs.Runs.{standing_at, state_of};
ghost use Rattle.trace_steps.specs.Results.{Concluded};
ghost use Rattle.answers.specs.declared.Answer.TheVariants.{Refused};

use crate::starts;
use crate::steps::Ran;
use answers::{Answer, Reason, Refusal};
use program_readers::places::Sizes;
use run_state::{expressions, frames};

// An answer, and how many values it leaves at the buffer's front: 0 but after an accepted trace.
#[derive(Drop)]
pub struct Counted {
    pub answer: Answer,
    pub count: usize,
}

pub fn refused(refusal: Refusal) -> Counted
    ensures { result ≡ record { answer = Refused refusal; count = 0 } }
{
    Counted {
        answer: Answer::Refused(refusal),
        count: 0,
    }
}

// The answer to a trace that came to its end.
pub fn conclude(
    program: &[i32],
    sizes: Sizes,
    witness: &[i32],
    globals: &[i64],
    frames: &[i64],
    ran: Ran,
    steps: usize,
    buffer: &mut [i64],
) -> Counted
    requires formed { Formed program.now sizes }
    requires trace_form { TraceForm program.now witness.now }
    requires proper { Proper program.now (state_of program.now witness.now globals.now frames.now (standing_at ran)) }
    requires used_in_bounds { ran.used ≤ length (listed_entry_values program.now witness.now) }
    ensures { Concluded program.now witness.now steps (state_of program.now witness.now globals.now frames.now (standing_at ran)) buffer.old (answer_of result.answer) result.count buffer.new }
{
    let left = reading::number_at(witness, 2, starts::MOST_ENTRY_VALUES) - ran.used;
    if left != 0 {
        let place = witness.len() - left;
        return refused(Refusal::at(Reason::EntryValues, place));
    }
    let scope = expressions::scope_of(program, sizes, frames, ran.depth);
    let g = scope.globals;
    let l = scope.locals;
    let k = g + l;
    if buffer.len() < k {
        return refused(Refusal::at(Reason::BufferLength, k));
    }
    frames::put_values(buffer, 0, globals, 0, g);
    frames::put_values(buffer, g, frames, scope.from, l);
    Counted {
        answer: Answer::Trace(steps),
        count: k,
    }
}
