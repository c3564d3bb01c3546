// ⟨ret, i, δ⟩: the step from a call's exit back to the call statement that made it.
ghost use Rattle.std.specs.Prelude.{List, ◌+◌, ◌≤◌, ℤ};
ghost use Rattle.trace_steps.specs.Runs.{Sized, Here, Came};
ghost use Rattle.valid_paths.specs.Readings.{Returning, Above};

use answers::{Reason, Refusal};
use program_readers::places::Vertex;
use program_readers::statements;
use run_state::changes::Standing;
use trace_steps::steps;
use trace_steps::steps::{Ran, TraceSizes};

// The call's return point must be listed, and the caller's locals are those below. Nothing leaves vertex 0. Nothing is stored.
pub(crate) fn step_back(
    program: &[i32],
    trace: TraceSizes,
    witness: &[i32],
    at: usize,
    call: Vertex,
    here: Standing,
) -> Ran
    requires sized { Sized program.now witness.now trace }
    requires at_le_steps { at ≤ trace.steps }
    requires returning { Returning program.now trace.sizes call here }
    ensures { (entries globals frames : List ℤ) → Here program.now witness.now entries trace at globals frames here → Above program.now frames call here → Came program.now witness.now entries (at + 1) globals frames result }
{
    let sizes = trace.sizes;
    let place = trace.first + (at + 1);
    if here.vertex.0 == 0 {
        return steps::failed(here, Refusal::at(Reason::ListedVertex, place));
    }
    let row = statements::call_row(program, sizes, call);
    let back = row.back;
    let same = reading::word_within(witness, place, back.0, back.0);
    let last = at + 1 == trace.steps;
    if !same {
        return steps::failed(here, Refusal::at(Reason::ListedVertex, place));
    }
    if last {
        return steps::failed(here, Refusal::at(Reason::ListedVertex, place));
    }
    let depth = here.depth - 1;
    steps::passed(steps::standing(back, depth, here.used))
}
