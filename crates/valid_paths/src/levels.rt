// M → ε | σ | M M | ⟨call, i, δ⟩ M ⟨ret, i, δ⟩: a level stretch "holds calls with level stretches inside".
ghost use Rattle.std.specs.Prelude.{◌≡◌, ◌<◌};
ghost use Rattle.run_state.specs.State.{state_at, configuration_of};
ghost use Rattle.trace_steps.specs.Runs.{Here};
ghost use Rattle.valid_paths.specs.Readings.{stretch_at, reached_at, Table, Matched, PartRead, LevelRead};

use crate::turns::Turn;
use crate::{returns, turns};
use run_state::changes::Standing;
use trace_steps::steps;
use trace_steps::steps::{Ran, TraceSizes};

// After how many steps the reading stands where.
#[derive(Drop)]
pub struct Reached {
    pub at: usize,
    pub here: Standing,
}

// After how many steps a stretch was read to its end, or refused.
#[derive(Drop)]
pub struct Stretch {
    pub at: usize,
    pub ran: Ran,
}

pub(crate) fn reached_at(at: usize, here: Standing) -> Reached
    ensures { result ≡ reached_at at here }
{
    Reached { at, here }
}

fn stretched(at: usize, ran: Ran) -> Stretch
    ensures { result ≡ stretch_at at ran }
{
    Stretch { at, ran }
}

// M → ⟨call, i, δ⟩ M ⟨ret, i, δ⟩: into a call that comes back, a level stretch inside it, and back to where it was made. The stretch ends at the
// call's exit: the trace doesn't end before, and a call that doesn't come back can't stand inside one that does.
#[cycle(level_level_part_matched_call)]
fn matched_call(
    program: &[i32],
    trace: TraceSizes,
    witness: &[i32],
    entries: &[i32],
    table: &[usize],
    globals: &mut [i64],
    frames: &mut [i64],
    from: Reached,
) -> Stretch
    requires here { Here program.now witness.now entries.now trace from.at globals.old frames.old from.here }
    requires table { Table program.now witness.now table.now }
    requires cases { Matched program.now witness.now from.at from.here.vertex.0 }
    ensures { PartRead program.now witness.now entries.now from.at (configuration_of program.now (state_at globals.old frames.old entries.now from.here)) globals.new frames.new result }
{
    let at = from.at;
    let caller = from.here;
    let call = caller.vertex;
    let called = steps::step_on(
        program, trace, witness, entries, globals, frames, at, caller,
    );
    let entered = called.end;
    let callee = steps::standing(called.vertex, called.depth, called.used);
    if let Err(refusal) = entered {
        return stretched(at + 1, steps::failed(callee, refusal));
    }
    let inner = reached_at(at + 1, callee);
    let inside = level(
        program, trace, witness, entries, table, globals, frames, inner,
    );
    let ran = inside.ran;
    let end = ran.end;
    let exit = steps::standing(ran.vertex, ran.depth, ran.used);
    let came = inside.at;
    if let Err(refusal) = end {
        return stretched(came, steps::failed(exit, refusal));
    }
    let back = returns::step_back(program, trace, witness, came, call, exit);
    stretched(came + 1, back)
}

// A part of a level stretch, M → ε | σ | ⟨call, i, δ⟩ M ⟨ret, i, δ⟩: ε before the return of the call that it stands in, and before a call that
// doesn't come back.
#[cycle(level_level_part_matched_call)]
fn level_part(
    program: &[i32],
    trace: TraceSizes,
    witness: &[i32],
    entries: &[i32],
    table: &[usize],
    globals: &mut [i64],
    frames: &mut [i64],
    from: Reached,
) -> Stretch
    requires here { Here program.now witness.now entries.now trace from.at globals.old frames.old from.here }
    requires table { Table program.now witness.now table.now }
    requires at_lt_steps { from.at < trace.steps }
    ensures { PartRead program.now witness.now entries.now from.at (configuration_of program.now (state_at globals.old frames.old entries.now from.here)) globals.new frames.new result }
{
    let at = from.at;
    let here = from.here;
    let vertex = here.vertex;
    let sizes = trace.sizes;
    let turn = turns::turn_of(program, sizes, vertex.0);
    match turn {
        Turn::Stays => {
            let ran = steps::step_on(program, trace, witness, entries, globals, frames, at, here);
            stretched(at + 1, ran)
        }
        Turn::Calls => {
            if table[at + 1] == 0 {
                return stretched(at, steps::passed(here));
            }
            matched_call(
                program, trace, witness, entries, table, globals, frames, from,
            )
        }
        Turn::Returns => stretched(at, steps::passed(here)),
    }
}

// M → M M: a level stretch, part by part, to the trace's end or to where no part begins.
// A stretch that ends here is made anew and not handed on whole, which would copy each step's result once more.
#[cycle(level_level_part_matched_call)]
pub(crate) fn level(
    program: &[i32],
    trace: TraceSizes,
    witness: &[i32],
    entries: &[i32],
    table: &[usize],
    globals: &mut [i64],
    frames: &mut [i64],
    from: Reached,
) -> Stretch
    requires here { Here program.now witness.now entries.now trace from.at globals.old frames.old from.here }
    requires table { Table program.now witness.now table.now }
    ensures { LevelRead program.now witness.now entries.now from.at (configuration_of program.now (state_at globals.old frames.old entries.now from.here)) globals.new frames.new result }
{
    let steps = trace.steps;
    let start = from.here;
    let mut at = from.at;
    let mut vertex = start.vertex;
    let mut depth = start.depth;
    let mut used = start.used;
    while at < steps {
        let here = reached_at(at, steps::standing(vertex, depth, used));
        let part = level_part(
            program, trace, witness, entries, table, globals, frames, here,
        );
        let ran = part.ran;
        let end = ran.end;
        let next = part.at;
        let there = steps::standing(ran.vertex, ran.depth, ran.used);
        if let Err(refusal) = end {
            return stretched(next, steps::failed(there, refusal));
        }
        if next == at {
            return stretched(at, steps::passed(there));
        }
        at = next;
        vertex = ran.vertex;
        depth = ran.depth;
        used = ran.used;
    }
    stretched(at, steps::passed(steps::standing(vertex, depth, used)))
}
