// Whether the steps of a trace stay in their calls, call or return, by the vertices that they leave; and which of the calls come back.
ghost use Rattle.std.specs.Prelude.{not, ◌≡◌, ◌≤◌, ◌<◌, length};
ghost use Rattle.words.specs.Words.{word};
ghost use Rattle.programs.specs.Decode as decode;
ghost use Rattle.programs.specs.MoveLabels.{turn_at};
ghost use Rattle.traces.specs.Stretches.{with_turn, listed_at};
ghost use Rattle.run_state.specs.State.{Formed};
ghost use Rattle.trace_steps.specs.Runs.{Sized};
ghost use Rattle.valid_paths.specs.Readings.{turn_for, turn_of, is_statement, Table};

use program_readers::inside;
use program_readers::kinds::Kind;
use program_readers::places::{Sizes, Vertex};
use trace_steps::steps::TraceSizes;

#[derive(Drop)]
pub enum Turn {
    Stays,
    Calls,
    Returns,
}

pub(crate) fn is_statement(sizes: Sizes, v: usize) -> bool
    ensures { result ≡ is_statement sizes v }
{
    (1 <= v) & (v <= sizes.statements)
}

// The turn of a step that leaves a vertex. What is no statement is left by a return or not at all.
pub(crate) fn turn_of(program: &[i32], sizes: Sizes, v: usize) -> Turn
    requires { Formed program.now sizes }
    ensures { result ≡ turn_for (turn_at (decode.program program.now) v) }
{
    if !is_statement(sizes, v) {
        return Turn::Returns;
    }
    match inside::kind_inside(program, Vertex(v)).unwrap() {
        Kind::Call => Turn::Calls,
        _ => Turn::Stays,
    }
}

// How many returns there are from a step on whose calls were made before it, by those behind the step.
fn with_turn(turn: Turn, after: usize) -> usize
    requires { after ≤ 4096 }
    ensures { result ≡ with_turn (turn_of turn) after }
{
    match turn {
        Turn::Stays => after,
        Turn::Calls => {
            if after == 0 {
                return 0;
            }
            after - 1
        }
        Turn::Returns => after + 1,
    }
}

// The vertex that the word at a place lists; a word below 0 lists none, and is read as 0.
fn listed_in(witness: &[i32], place: usize) -> usize
    ensures { result ≡ listed_at (word witness.now place) }
{
    let listed = reading::natural_at(witness, place);
    match listed {
        Some(v) => v,
        None => 0,
    }
}

// Entry i of the table: how many returns there are from the vertex after i steps on whose calls were made before. One pass, from the trace's
// end. A call, the step after i others, comes back if and only if entry i + 1 is above 0. What the entries behind the steps hold is left open.
pub(crate) fn fill_returns(program: &[i32], trace: TraceSizes, witness: &[i32], table: &mut [usize])
    requires sized { Sized program.now witness.now trace }
    requires steps_in_bounds { trace.steps < length table.old }
    ensures { Table program.now witness.now table.new }
{
    let sizes = trace.sizes;
    let first = trace.first;
    let steps = trace.steps;
    table[steps] = 0;
    for i in 0..steps {
        let from = steps - (i + 1);
        let v = listed_in(witness, first + from);
        let turn = turn_of(program, sizes, v);
        let after = table[from + 1];
        table[from] = with_turn(turn, after);
    }
}
