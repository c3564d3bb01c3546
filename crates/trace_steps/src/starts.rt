// A trace's tests 4 and 9, and the state that it starts from.
ghost use Rattle.std.specs.Prelude.{◌≡◌, ◌+◌, ◌≤◌, ◌<◌, length, drop};
ghost use Rattle.std.proofs.Math.Seq.{paste};
ghost use Rattle.basics.specs.Lists.{listed};
ghost use Rattle.words.specs.Tests.{first_failure};
ghost use Rattle.programs.specs.ProgramWords.{G, locals};
ghost use Rattle.traces.specs.TraceTests as tests;
ghost use Rattle.traces.specs.TraceWords as words;
ghost use Rattle.traces.specs.TraceForm.{TraceForm};
ghost use Rattle.program_readers.specs.Sizes.{Header};
ghost use Rattle.answers.specs.Answers.{told};
ghost use Rattle.answers.specs.Tested.{tested};
ghost use Rattle.run_state.specs.State.{Formed};
ghost use Rattle.trace_steps.specs.Runs.{Blank, Started};
ghost use Rattle.trace_steps.specs.ValueTests.{value_test};

use answers::{Reason, Refusal};
use program_readers::places::{Procedure, Sizes};
use program_readers::readers;
use run_state::frames;

pub const MOST_STEPS: usize = 4096;

pub const MOST_ENTRY_VALUES: usize = 32768;

const TRACE_MARK: usize = 3;

const START_LIMIT: usize = 1000000000;

// How many start values there are: main's G and L.
pub fn starts_of(program: &[i32], sizes: Sizes) -> usize
    requires { Header program.now sizes }
    ensures value { result ≡ G program.now + locals program.now 1 }
    ensures upper_bound { result ≤ 16 }
{
    sizes.globals + readers::locals_of(program, sizes, Procedure(1))
}

// Where the entry values begin, if the trace has the form: after the vertices.
pub fn entries_from(program: &[i32], sizes: Sizes, witness: &[i32]) -> usize
    requires { Header program.now sizes }
    ensures value { result ≡ words.entry_values_from program.now witness.now }
    ensures lower_bound { (1 ≤ result) × (result ≤ 4116) }
{
    let starts = starts_of(program, sizes);
    let vertices = reading::number_at(witness, 1, MOST_STEPS) + 1;
    3 + starts + vertices
}

// 4: mark, sizes and total.
fn header_passes(program: &[i32], sizes: Sizes, witness: &[i32]) -> bool
    requires { Header program.now sizes }
    ensures { result ≡ tests.header_passes program.now witness.now }
{
    let from = entries_from(program, sizes, witness);
    let header = 3 <= witness.len();
    let mark = reading::word_within(witness, 0, TRACE_MARK, TRACE_MARK);
    let steps = reading::word_within(witness, 1, 1, MOST_STEPS);
    let entries = reading::word_within(witness, 2, 0, MOST_ENTRY_VALUES);
    let total = witness.len() == from + reading::number_at(witness, 2, MOST_ENTRY_VALUES);
    header & (mark & (steps & (entries & total)))
}

// 9: so many values, each behind a place.
fn values_tested(witness: &[i32], before: usize, count: usize) -> Result<(), Refusal>
    requires { before + count < length witness.now }
    ensures { told result ≡ tested (first_failure (listed (value_test witness.now before) count)) }
{
    for i in 0..count {
        let place = before + (i + 1);
        if !reading::word_small(witness, place, START_LIMIT) {
            return Err(Refusal::at(Reason::StartValue, place));
        }
    }
    Ok(())
}

pub fn trace_tested(program: &[i32], sizes: Sizes, witness: &[i32]) -> Result<(), Refusal>
    requires { Header program.now sizes }
    ensures { told result ≡ tested (first_failure (tests.trace_tests program.now witness.now)) }
{
    if !header_passes(program, sizes, witness) {
        return Err(Refusal::at(Reason::Header, 0));
    }
    let starts = starts_of(program, sizes);
    values_tested(witness, 2, starts)?;
    let from = entries_from(program, sizes, witness);
    let entries = reading::number_at(witness, 2, MOST_ENTRY_VALUES);
    values_tested(witness, from - 1, entries)
}

// So many words of the witness from `at` on, widened, from a place of the values on.
fn put_words(values: &mut [i64], to: usize, witness: &[i32], at: usize, count: usize)
    requires count_in_bounds { to + count ≤ length values.old }
    requires count_in_bounds_2 { at + count ≤ length witness.now }
    ensures { values.new ≡ paste values.old to (drop at witness.now) count }
{
    for i in 0..count {
        values[to + i] = numbers::wide(witness, at + i);
    }
}

// Main's call alone, at vertex 1: the start values in the globals, and in main's frame.
pub fn start_state(
    program: &[i32],
    sizes: Sizes,
    witness: &[i32],
    globals: &mut [i64],
    frames: &mut [i64],
)
    requires formed { Formed program.now sizes }
    requires trace_form { TraceForm program.now witness.now }
    requires blank { Blank globals.old frames.old }
    ensures { Started program.now witness.now globals.new frames.new }
{
    let g = sizes.globals;
    let count = readers::locals_of(program, sizes, Procedure(1));
    let mut frame = [0i64; 10];
    frame[0] = 1;
    put_words(globals, 0, witness, 3, g);
    put_words(&mut frame, 2, witness, 3 + g, count);
    frames::put_frame(frames, 0, frame);
}
