// How open calls lie in the buffer of frames, main's first, ten numbers each: the procedure, the vertex at which the call below waits, and the
// locals. Functions are public for the replay.
ghost use Rattle.std.specs.Prelude.{◌≡◌, ◌+◌, ◌*◌, ◌≤◌, length, drop};
ghost use Rattle.std.proofs.Math.Seq.{paste};
ghost use Rattle.words.specs.Limits.{most_calls};
ghost use Rattle.run_state.specs.Frames.{frame_size, number_of, procedure_in, caller_in};

use program_readers::places::{Procedure, Vertex};

const FRAME: usize = 10;

// Where the frame of open call i begins; main's is call 0.
pub(crate) fn frame_place(i: usize) -> usize
    requires { i ≤ most_calls }
    ensures { result ≡ i * frame_size }
{
    i * FRAME
}

// A number of a frame. None is below 0.
fn number_of(x: i64) -> usize
    ensures { result ≡ number_of x }
{
    if x < 0 {
        return 0;
    }
    x as usize
}

pub(crate) fn procedure_in(frames: &[i64], i: usize) -> Procedure
    requires i_le_most_calls { i ≤ most_calls }
    requires frame_size_in_bounds { i * frame_size + frame_size ≤ length frames.now }
    ensures { result.0 ≡ procedure_in frames.now i }
{
    Procedure(number_of(frames[frame_place(i)]))
}

// Where the call below open call i waits.
pub(crate) fn caller_in(frames: &[i64], i: usize) -> Vertex
    requires i_le_most_calls { i ≤ most_calls }
    requires frame_size_in_bounds { i * frame_size + frame_size ≤ length frames.now }
    ensures { result.0 ≡ caller_in frames.now i }
{
    Vertex(number_of(frames[frame_place(i) + 1]))
}

// So many values from a place on, from a place of the buffer on.
pub fn put_values(buffer: &mut [i64], at: usize, values: &[i64], from: usize, count: usize)
    requires count_in_bounds { at + count ≤ length buffer.old }
    requires count_in_bounds_2 { from + count ≤ length values.now }
    ensures { buffer.new ≡ paste buffer.old at (drop from values.now) count }
{
    for i in 0..count {
        buffer[at + i] = values[from + i];
    }
}

// The frame, from a place on.
pub fn put_frame(frames: &mut [i64], at: usize, frame: [i64; 10])
    requires frame_size_in_bounds { at + frame_size ≤ length frames.old }
    requires frame_len { length frame ≡ frame_size }
    ensures { frames.new ≡ paste frames.old at frame frame_size }
{
    put_values(frames, at, &frame, 0, FRAME);
}
