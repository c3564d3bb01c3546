// The cases of a step, in the order of Table 3 of the report. Each reads the state and the listed vertex, changes nothing, and says what changes
// or refuses. Only a call uses entry values, so the others say what changes whatever values are left, and ask nothing of these.
ghost use Rattle.std.specs.Prelude.{[]};
ghost use Rattle.numbers.specs.Small.{Small};
ghost use Rattle.words.specs.Limits.{value_limit};
ghost use Rattle.run_state.specs.State.{state_in, Moves, MovesOn, AtKind};

use crate::changes::{Change, Stored};
use crate::{changes, expressions, frames};
use answers::Reason;
use program_readers::kinds::{Kind, Op};
use program_readers::places::{Sizes, Vertex};
use program_readers::{readers, statements};

const MOST_CALLS: usize = 64;

pub(crate) fn skip(
    program: &[i32],
    sizes: Sizes,
    globals: &[i64],
    frames: &[i64],
    vertex: Vertex,
    depth: usize,
    listed: usize,
) -> Change
    requires { AtKind program.now sizes (state_in globals.now frames.now vertex depth []) Kind.Skip }
    ensures { MovesOn program.now globals.now frames.now vertex depth listed result }
{
    let row = statements::skip_row(program, sizes, vertex);
    if listed != row.next.0 {
        return changes::refused(vertex, depth, Reason::ListedVertex);
    }
    changes::moved(row.next, depth, Stored::Nothing)
}

pub(crate) fn assign(
    program: &[i32],
    sizes: Sizes,
    globals: &[i64],
    frames: &[i64],
    vertex: Vertex,
    depth: usize,
    listed: usize,
) -> Change
    requires { AtKind program.now sizes (state_in globals.now frames.now vertex depth []) Kind.Assign }
    ensures { MovesOn program.now globals.now frames.now vertex depth listed result }
{
    let row = statements::assign_row(program, sizes, vertex);
    if listed != row.next.0 {
        return changes::refused(vertex, depth, Reason::ListedVertex);
    }
    let scope = expressions::scope_of(program, sizes, frames, depth);
    let value = expressions::value_at(program, row.at, globals, frames, scope);
    if !expressions::is_small(value) {
        return changes::refused(vertex, depth, Reason::ValueLimit);
    }
    let g = sizes.globals;
    if row.column < g {
        return changes::moved(row.next, depth, Stored::Global(row.column, value));
    }
    let place = scope.from + (row.column - g);
    changes::moved(row.next, depth, Stored::Local(place, value))
}

pub(crate) fn branch(
    program: &[i32],
    sizes: Sizes,
    globals: &[i64],
    frames: &[i64],
    vertex: Vertex,
    depth: usize,
    listed: usize,
) -> Change
    requires { AtKind program.now sizes (state_in globals.now frames.now vertex depth []) Kind.Branch }
    ensures { MovesOn program.now globals.now frames.now vertex depth listed result }
{
    let row = statements::branch_row(program, sizes, vertex);
    let scope = expressions::scope_of(program, sizes, frames, depth);
    let value = expressions::value_at(program, row.at, globals, frames, scope);
    let holds = expressions::compares(row.op, value);
    let choice = row.op == Op::Choice;
    let yes = (listed == row.yea.0) & (choice | holds);
    let no = (listed == row.nay.0) & (choice | !holds);
    if yes | no {
        return changes::moved(Vertex(listed), depth, Stored::Nothing);
    }
    changes::refused(vertex, depth, Reason::ListedVertex)
}

pub(crate) fn assert(
    program: &[i32],
    sizes: Sizes,
    globals: &[i64],
    frames: &[i64],
    vertex: Vertex,
    depth: usize,
    listed: usize,
) -> Change
    requires { AtKind program.now sizes (state_in globals.now frames.now vertex depth []) Kind.Assert }
    ensures { MovesOn program.now globals.now frames.now vertex depth listed result }
{
    let row = statements::assert_row(program, sizes, vertex);
    let scope = expressions::scope_of(program, sizes, frames, depth);
    let compared = expressions::value_at(program, row.at, globals, frames, scope);
    let holds = expressions::compares(row.op, compared);
    let passes = (listed == row.next.0) & holds;
    let fails = (listed == 0) & !holds;
    if passes | fails {
        return changes::moved(Vertex(listed), depth, Stored::Nothing);
    }
    changes::refused(vertex, depth, Reason::ListedVertex)
}

// The caller stays at its call statement, and waits there. The callee's other locals get the first of the entry values that are left.
pub(crate) fn call(
    program: &[i32],
    sizes: Sizes,
    globals: &[i64],
    frames: &[i64],
    left: &[i32],
    vertex: Vertex,
    depth: usize,
    listed: usize,
) -> Change
    requires at_kind { AtKind program.now sizes (state_in globals.now frames.now vertex depth left.now) Kind.Call }
    requires small { Small value_limit left.now }
    ensures { Moves program.now (state_in globals.now frames.now vertex depth left.now) listed result }
{
    let row = statements::call_row(program, sizes, vertex);
    let first = readers::first_of(program, sizes, row.callee);
    if listed != first.0 {
        return changes::refused(vertex, depth, Reason::ListedVertex);
    }
    let scope = expressions::scope_of(program, sizes, frames, depth);
    let count = readers::parameters_of(program, sizes, row.callee);
    let others = readers::locals_of(program, sizes, row.callee) - count;
    let frame = expressions::entered_frame(
        program, row.at, globals, frames, scope, row.callee, vertex, count,
    );
    let deep = depth == MOST_CALLS;
    let missing = left.len() < others;
    let small = expressions::all_small(&frame, 2, count);
    if deep {
        return changes::refused(vertex, depth, Reason::CallDepth);
    }
    if missing {
        return changes::refused(vertex, depth, Reason::EntryValues);
    }
    if !small {
        return changes::refused(vertex, depth, Reason::ValueLimit);
    }
    let filled = expressions::filled_frame(frame, count, left, others);
    changes::entered(first, depth, others, filled)
}

// Back to the return point of the call statement at which the call below waits.
pub(crate) fn exit(
    program: &[i32],
    sizes: Sizes,
    globals: &[i64],
    frames: &[i64],
    vertex: Vertex,
    depth: usize,
    listed: usize,
) -> Change
    requires { AtKind program.now sizes (state_in globals.now frames.now vertex depth []) Kind.Exit }
    ensures { MovesOn program.now globals.now frames.now vertex depth listed result }
{
    if depth == 1 {
        return changes::refused(vertex, depth, Reason::ListedVertex);
    }
    let waiting = frames::caller_in(frames, depth - 1);
    let row = statements::call_row(program, sizes, waiting);
    if listed != row.back.0 {
        return changes::refused(vertex, depth, Reason::ListedVertex);
    }
    changes::moved(row.back, depth - 1, Stored::Nothing)
}
