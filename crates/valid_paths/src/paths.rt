// V → ε | M V | ⟨call, i, δ⟩ V: "a valid path is level stretches and unmatched calls".
ghost use Rattle.std.specs.Prelude.{◌⊎◌, ◌≡◌};
ghost use Rattle.traces.specs.Stretches.{returns_from};
ghost use Rattle.trace_steps.specs.Runs.{Starting, Here, Came};
ghost use Rattle.valid_paths.specs.Readings.{Table, ValidRead};

use crate::levels::Reached;
use crate::{levels, turns};
use answers::{Reason, Refusal};
use program_readers::places::{Sizes, Vertex};
use trace_steps::steps;
use trace_steps::steps::{Ran, TraceSizes};

// A valid path to the trace's end, in main's call or in one that doesn't come back: a level stretch, and then nothing, or a call that doesn't come
// back and a valid path in it. There is no ⟨ret, i, δ⟩ without its call: main's exit has no step.
pub(crate) fn valid(
    program: &[i32],
    trace: TraceSizes,
    witness: &[i32],
    entries: &[i32],
    table: &[usize],
    globals: &mut [i64],
    frames: &mut [i64],
    from: Reached,
) -> Ran
    requires here { Here program.now witness.now entries.now trace from.at globals.old frames.old from.here }
    requires table { Table program.now witness.now table.now }
    requires fact { (from.here.depth ≡ 1) ⊎ (returns_from program.now witness.now from.at ≡ 0) }
    ensures { ValidRead program.now witness.now entries.now from.at globals.new frames.new result }
{
    let stretch = levels::level(
        program, trace, witness, entries, table, globals, frames, from,
    );
    let ran = stretch.ran;
    let end = ran.end;
    if let Err(_) = end {
        return ran;
    }
    let at = stretch.at;
    if at == trace.steps {
        return ran;
    }
    let here = steps::standing(ran.vertex, ran.depth, ran.used);
    let sizes = trace.sizes;
    if !turns::is_statement(sizes, here.vertex.0) {
        return steps::failed(
            here,
            Refusal::at(Reason::ListedVertex, trace.first + (at + 1)),
        );
    }
    let called = steps::step_on(program, trace, witness, entries, globals, frames, at, here);
    let entered = called.end;
    if let Err(_) = entered {
        return called;
    }
    let callee = steps::standing(called.vertex, called.depth, called.used);
    let inner = levels::reached_at(at + 1, callee);
    valid(
        program, trace, witness, entries, table, globals, frames, inner,
    )
}

// So many steps from main's start, read as a valid path.
pub fn whole_path(
    program: &[i32],
    sizes: Sizes,
    witness: &[i32],
    entries: &[i32],
    steps: usize,
    globals: &mut [i64],
    frames: &mut [i64],
) -> Ran
    requires { Starting program.now sizes witness.now entries.now steps globals.old frames.old }
    ensures { Came program.now witness.now entries.now steps globals.new frames.new result }
{
    let trace = steps::trace_sizes(program, sizes, steps);
    let start = levels::reached_at(0, steps::standing(Vertex(1), 1, 0));
    let mut table = [0usize; 4097];
    turns::fill_returns(program, trace, witness, &mut table);
    valid(
        program, trace, witness, entries, &table, globals, frames, start,
    )
}
