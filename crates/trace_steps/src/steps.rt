// A step of a replay, to the vertex listed next; and what a replay gives back.
ghost use Rattle.std.specs.Prelude.{◌≡◌, ◌+◌};
ghost use Rattle.programs.specs.ProgramWords.{G, locals};
ghost use Rattle.traces.specs.TraceWords.{starts_from};
ghost use Rattle.run_state.specs.State.{Formed, line_from};
ghost use Rattle.program_readers.specs.Sizes.{Header};
ghost use Rattle.trace_steps.specs.Runs.{trace_sizes, lined, failed_at, passed_at, Here, Came};

use crate::starts;
use answers::{Reason, Refusal};
use program_readers::places::{Sizes, Vertex};
use program_readers::readers;
use run_state::changes::Standing;
use run_state::record;

// The sizes of a program and of its trace: where the first vertex stands, and how many steps there are.
#[derive(Clone, Copy)]
pub struct TraceSizes {
    pub sizes: Sizes,
    pub first: usize,
    pub steps: usize,
}

pub fn trace_sizes(program: &[i32], sizes: Sizes, steps: usize) -> TraceSizes
    requires { Header program.now sizes }
    ensures { result ≡ trace_sizes sizes (starts_from + (G program.now + locals program.now 1)) steps }
{
    let first = 3 + starts::starts_of(program, sizes);
    TraceSizes {
        sizes,
        first,
        steps,
    }
}

// A replay: it passed every vertex, and this is where it came to; or it failed, and where its state then is is left open.
#[derive(Clone, Copy)]
pub struct Ran {
    pub end: Result<(), Refusal>,
    pub vertex: Vertex,
    pub depth: usize,
    pub used: usize,
}

pub fn standing(vertex: Vertex, depth: usize, used: usize) -> Standing
    ensures { result ≡ record { vertex = vertex; depth = depth; used = used } }
{
    Standing {
        vertex,
        depth,
        used,
    }
}

// The replay that is refused where it stands.
pub fn failed(here: Standing, refusal: Refusal) -> Ran
    ensures { result ≡ failed_at here refusal }
{
    let vertex = here.vertex;
    Ran {
        end: Err(refusal),
        vertex,
        depth: here.depth,
        used: here.used,
    }
}

// The replay that passed every vertex so far.
pub fn passed(there: Standing) -> Ran
    ensures { result ≡ passed_at there }
{
    let vertex = there.vertex;
    Ran {
        end: Ok(()),
        vertex,
        depth: there.depth,
        used: there.used,
    }
}

// The line of a refusal at a step that leaves this vertex: 10 to 12 have the vertex's, where it is a statement.
fn line_from(program: &[i32], sizes: Sizes, number: usize, vertex: Vertex) -> usize
    requires { Formed program.now sizes }
    ensures { result ≡ line_from program.now number vertex.0 }
{
    if 12 < number {
        return 0;
    }
    if vertex.0 == 0 {
        return 0;
    }
    if sizes.statements < vertex.0 {
        return 0;
    }
    readers::line_at(program, sizes, vertex)
}

// The replay that is refused at a step that leaves where it stands: with the line of what is left.
pub fn failed_leaving(program: &[i32], sizes: Sizes, here: Standing, refusal: Refusal) -> Ran
    requires { Formed program.now sizes }
    ensures { result ≡ failed_at here (lined program.now refusal here.vertex.0) }
{
    let vertex = here.vertex;
    let line = line_from(program, sizes, refusal.number, vertex);
    failed(here, Refusal { line, ..refusal })
}

// The step to the vertex listed next, from where the replay stands after so many steps. A word below 0 lists no vertex.
pub fn step_on(
    program: &[i32],
    trace: TraceSizes,
    witness: &[i32],
    entries: &[i32],
    globals: &mut [i64],
    frames: &mut [i64],
    at: usize,
    here: Standing,
) -> Ran
    requires { Here program.now witness.now entries.now trace at globals.old frames.old here }
    ensures { Came program.now witness.now entries.now (at + 1) globals.new frames.new result }
{
    let sizes = trace.sizes;
    let place = trace.first + (at + 1);
    let listed = reading::natural_at(witness, place);
    let Some(v) = listed else {
        let refusal = Refusal::at(Reason::ListedVertex, place);
        return failed_leaving(program, sizes, here, refusal);
    };
    let last = at + 1 == trace.steps;
    let stepped = record::moved_on(program, sizes, globals, frames, entries, here, v, last);
    let outcome = stepped.outcome;
    let there = standing(stepped.vertex, stepped.depth, stepped.used);
    if let Err(number) = outcome {
        let refusal = Refusal {
            number,
            place,
            line: 0,
        };
        return failed_leaving(program, sizes, there, refusal);
    }
    passed(there)
}
