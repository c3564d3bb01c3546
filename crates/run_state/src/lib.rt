// A run's steps, by the cases of Table 3 of the report, over the parts of document 01's run record: where the run stands by value, globals and
// frames in two buffers. The calls' entry values are words of the trace. What a step changes is worked out by value, and then stored.
// Functions are public for the crates above. What they require, the state of a replay meets. What a state stands for is fixed; above the depth,
// and behind the locals that a procedure has, what the buffers hold is left open.
#![tactic(auto)]

ghost use Rattle.std.specs.Prelude.{pos};
ghost use Rattle.run_state.specs.State.{Steppable, Steps, ComesTo, state_at, progress_from};

use crate::changes::{Change, Standing, Stepped};
use answers::Reason;
use program_readers::inside;
use program_readers::kinds::Kind;
use program_readers::places::{Sizes, Vertex};

mod cases;
pub mod changes;
pub mod expressions;
pub mod frames;
pub mod record;

// What the step to the listed vertex changes; the last must be 0.
fn change(
    program: &[i32],
    sizes: Sizes,
    globals: &[i64],
    frames: &[i64],
    entries: &[i32],
    here: Standing,
    listed: usize,
    last: bool,
) -> Change
    requires { Steppable program.now sizes globals.now frames.now entries.now here }
    ensures { ComesTo program.now (state_at globals.now frames.now entries.now here) (progress_from program.now (state_at globals.now frames.now entries.now here) last (pos listed)) result }
{
    let vertex = here.vertex;
    let depth = here.depth;
    if last & (listed != 0) {
        return changes::refused(vertex, depth, Reason::ListedVertex);
    }
    // Nothing leaves vertex 0.
    if vertex.0 == 0 {
        return changes::refused(vertex, depth, Reason::ListedVertex);
    }
    // Every vertex has a kind.
    let kind = inside::kind_inside(program, vertex).unwrap();
    match kind {
        Kind::Skip => cases::skip(program, sizes, globals, frames, vertex, depth, listed),
        Kind::Assign => cases::assign(program, sizes, globals, frames, vertex, depth, listed),
        Kind::Branch => cases::branch(program, sizes, globals, frames, vertex, depth, listed),
        Kind::Assert => cases::assert(program, sizes, globals, frames, vertex, depth, listed),
        Kind::Call => {
            let from = here.used;
            let left = &entries[from..];
            cases::call(program, sizes, globals, frames, left, vertex, depth, listed)
        }
        Kind::Exit => cases::exit(program, sizes, globals, frames, vertex, depth, listed),
    }
}

// The step to the listed vertex, stored. After a refusal nothing has changed.
pub fn step(
    program: &[i32],
    sizes: Sizes,
    globals: &mut [i64],
    frames: &mut [i64],
    entries: &[i32],
    here: Standing,
    listed: usize,
    last: bool,
) -> Stepped
    requires { Steppable program.now sizes globals.old frames.old entries.now here }
    ensures { Steps program.now globals.old frames.old entries.now here last listed result globals.new frames.new }
{
    let used = here.used;
    let made = change(program, sizes, globals, frames, entries, here, listed, last);
    let gone = used + made.taken;
    let outcome = made.outcome;
    let arrived = made.vertex;
    let stored = made.stored;
    let frame = made.frame;
    changes::store(globals, frames, stored, frame);
    Stepped {
        outcome,
        vertex: arrived,
        depth: made.depth,
        used: gone,
    }
}
