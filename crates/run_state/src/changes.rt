// What a step gives back: its outcome, where the run then stands, and what is to be stored.
ghost use Rattle.std.specs.Prelude.{◌≡◌, ◌<◌};
ghost use Rattle.words.specs.Limits.{most_calls};
ghost use Rattle.answers.specs.Answers.{number_of};
ghost use Rattle.run_state.specs.Changes.{Storable, globals_after, frames_after, moved_to, refused_at, entered_at};

use crate::frames;
use answers::Reason;
use program_readers::places::Vertex;

// Where a run stands: the vertex of the top call, how many calls are open, and how many entry values they have used.
#[derive(Clone, Copy)]
pub struct Standing {
    pub vertex: Vertex,
    pub depth: usize,
    pub used: usize,
}

// Whether a step is made, or the number of its refusal, and where the run then stands. The error is the number and no `Reason`, with which a replay took
// a tenth more instructions.
#[derive(Drop)]
pub struct Stepped {
    pub outcome: Result<(), usize>,
    pub vertex: Vertex,
    pub depth: usize,
    pub used: usize,
}

// What is stored: nothing; a number at a place of the globals or of the frames; the frame of a call, from a place of the frames on.
#[derive(Drop)]
pub enum Stored {
    Nothing,
    Global(usize, i64),
    Local(usize, i64),
    Frame(usize),
}

// What a step changes; `taken` is how many entry values it uses. Only where a frame is stored is `frame` looked at.
#[derive(Drop)]
pub struct Change {
    pub outcome: Result<(), usize>,
    pub vertex: Vertex,
    pub depth: usize,
    pub taken: usize,
    pub stored: Stored,
    pub frame: [i64; 10],
}

// Nothing changes.
pub(crate) fn refused(vertex: Vertex, depth: usize, reason: Reason) -> Change
    ensures { result ≡ refused_at (number_of reason) vertex depth }
{
    Change {
        outcome: Err(reason.number()),
        vertex,
        depth,
        taken: 0,
        stored: Stored::Nothing,
        frame: [0i64; 10],
    }
}

pub(crate) fn moved(vertex: Vertex, depth: usize, stored: Stored) -> Change
    ensures { result ≡ moved_to vertex depth stored }
{
    Change {
        outcome: Ok(()),
        vertex,
        depth,
        taken: 0,
        stored,
        frame: [0i64; 10],
    }
}

// A call of so many open calls is entered, by this frame, with so many entry values: the frame goes behind theirs.
pub(crate) fn entered(vertex: Vertex, depth: usize, taken: usize, frame: [i64; 10]) -> Change
    requires { depth < most_calls }
    ensures { result ≡ entered_at vertex depth taken frame }
{
    let place = frames::frame_place(depth);
    let deeper = depth + 1;
    Change {
        outcome: Ok(()),
        vertex,
        depth: deeper,
        taken,
        stored: Stored::Frame(place),
        frame,
    }
}

pub(crate) fn store(globals: &mut [i64], frames: &mut [i64], stored: Stored, frame: [i64; 10])
    requires { Storable globals.old frames.old stored frame }
    ensures globals_after { globals.new ≡ globals_after globals.old stored }
    ensures frames_after { frames.new ≡ frames_after frames.old stored frame }
{
    match stored {
        Stored::Nothing => {}
        Stored::Global(i, x) => {
            globals[i] = x;
        }
        Stored::Local(i, x) => {
            frames[i] = x;
        }
        Stored::Frame(at) => {
            frames::put_frame(frames, at, frame);
        }
    }
}
