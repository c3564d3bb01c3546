// The steps of a replay, in either reading.
ghost use Rattle.std.specs.Prelude.{◌≡◌};
ghost use Rattle.traces.specs.TraceWords as words;
ghost use Rattle.traces.specs.TraceForm.{TraceForm};
ghost use Rattle.run_state.specs.State.{Formed};
ghost use Rattle.trace_steps.specs.Runs.{Blank, Starting, Came};

use answers::{Reason, Refusal};
use program_readers::places::{Sizes, Vertex};
use trace_steps::steps::Ran;
use trace_steps::{starts, steps};
use valid_paths::paths;

// So many steps from main's start, one after the other, up to the first that is refused.
fn all_steps(
    program: &[i32],
    sizes: Sizes,
    witness: &[i32],
    entries: &[i32],
    steps: usize,
    globals: &mut [i64],
    frames: &mut [i64],
) -> Ran
    requires { Starting program.now sizes witness.now entries.now steps globals.old frames.old }
    ensures { Came program.now witness.now entries.now steps globals.new frames.new result }
{
    let trace = steps::trace_sizes(program, sizes, steps);
    let mut vertex = Vertex(1);
    let mut depth = 1usize;
    let mut used = 0usize;
    for i in 0..steps {
        let here = steps::standing(vertex, depth, used);
        let ran = steps::step_on(program, trace, witness, entries, globals, frames, i, here);
        let end = ran.end;
        vertex = ran.vertex;
        depth = ran.depth;
        used = ran.used;
        if let Err(_) = end {
            return ran;
        }
    }
    steps::passed(steps::standing(vertex, depth, used))
}

// From the start on, where the first vertex is 1.
pub(crate) fn run(
    program: &[i32],
    sizes: Sizes,
    witness: &[i32],
    steps: usize,
    globals: &mut [i64],
    frames: &mut [i64],
    by_grammar: bool,
) -> Ran
    requires formed { Formed program.now sizes }
    requires trace_form { TraceForm program.now witness.now }
    requires steps_value { steps ≡ words.N program.now witness.now }
    requires blank { Blank globals.old frames.old }
    ensures { Came program.now witness.now (words.listed_entry_values program.now witness.now) steps globals.new frames.new result }
{
    let place = 3 + starts::starts_of(program, sizes);
    starts::start_state(program, sizes, witness, globals, frames);
    if !reading::word_within(witness, place, 1, 1) {
        let start = steps::standing(Vertex(1), 1, 0);
        return steps::failed(start, Refusal::at(Reason::ListedVertex, place));
    }
    let from = starts::entries_from(program, sizes, witness);
    let entries = &witness[from..];
    if by_grammar {
        return paths::whole_path(program, sizes, witness, entries, steps, globals, frames);
    }
    all_steps(program, sizes, witness, entries, steps, globals, frames)
}
