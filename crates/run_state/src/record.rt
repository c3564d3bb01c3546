// The run record of document 01: the vertex of the top call, the globals, the frames and the depth, of which globals and frames lie in buffers
// that the record holds; and how many entry values the calls have used. One thin step over a mutable reference to it moves it on. Both
// functions are public for the replay.
ghost use Rattle.run_state.specs.State.{Steppable, Steps};
ghost use Rattle.run_state.specs.HeldBuffers.{SameBuffers, standing_in};

use crate::changes::{Standing, Stepped};
use program_readers::places::{Sizes, Vertex};

#[derive(Drop)]
pub struct RunRecord<'f> {
    pub vertex: Vertex,
    pub globals: &'f mut [i64],
    pub frames: &'f mut [i64],
    pub depth: usize,
    pub used: usize,
}

// The step to the listed vertex. After a refusal the record is as it came.
pub fn advance<'r, 'f, 'p, 'e>(
    run: &'r mut RunRecord<'f>,
    program: &'p [i32],
    sizes: Sizes,
    entries: &'e [i32],
    listed: usize,
    last: bool,
) -> Result<(), usize>
    requires { Steppable program.now sizes run.old.globals.now run.old.frames.now entries.now (standing_in run.old) }
    ensures { Steps program.now run.old.globals.now run.old.frames.now entries.now (standing_in run.old) last listed (record { outcome = result; vertex = run.new.vertex; depth = run.new.depth; used = run.new.used }) run.new.globals.now run.new.frames.now × SameBuffers run.old run.new }
{
    let vertex = run.vertex;
    let depth = run.depth;
    let used = run.used;
    let here = Standing {
        vertex,
        depth,
        used,
    };
    let got = crate::step(
        program,
        sizes,
        &mut *run.globals,
        &mut *run.frames,
        entries,
        here,
        listed,
        last,
    );
    run.vertex = got.vertex;
    run.depth = got.depth;
    run.used = got.used;
    got.outcome
}

// In plain parameters, over the form with the reference.
pub fn moved_on<'p, 'f, 'e>(
    program: &'p [i32],
    sizes: Sizes,
    globals: &'f mut [i64],
    frames: &'f mut [i64],
    entries: &'e [i32],
    here: Standing,
    listed: usize,
    last: bool,
) -> Stepped
    requires { Steppable program.now sizes globals.old frames.old entries.now here }
    ensures { Steps program.now globals.old frames.old entries.now here last listed result globals.new frames.new }
{
    let mut run = RunRecord {
        vertex: here.vertex,
        globals,
        frames,
        depth: here.depth,
        used: here.used,
    };
    let outcome = advance(&mut run, program, sizes, entries, listed, last);
    Stepped {
        outcome,
        vertex: run.vertex,
        depth: run.depth,
        used: run.used,
    }
}
