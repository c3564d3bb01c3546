// What a call sees, and what expressions over it come to. No sum leaves 64 bits: a value is within ±10^12, a coefficient within ±1,000, a
// constant within ±4 × 10^9, and there are at most 16 columns.
ghost use Rattle.std.specs.Prelude.{◌≡◌, ◌+◌, ◌-◌, ◌≤◌, ◌∷◌, pos, ◌+ℤ◌, length, take, drop};
ghost use Rattle.std.proofs.Math.Seq.{paste};
ghost use Rattle.rows.specs.Rows.{dot, value, values};
ghost use Rattle.words.specs.Limits.{most_locals, most_procedures, most_vertices, most_calls, value_limit};
ghost use Rattle.words.specs.Words.{small};
ghost use Rattle.words.specs.RowWords.{rows_of};
ghost use Rattle.words.specs.RowForm.{Expression, Expressions};
ghost use Rattle.programs.specs.Program as program;
ghost use Rattle.programs.specs.Decode.{comparison, expression};
ghost use Rattle.traces.specs.Replay.{all_values};
ghost use Rattle.program_readers.specs.Kinds.{op_number};
ghost use Rattle.run_state.specs.Frames.{frame_size, frames_size, procedure_in, padded};
ghost use Rattle.run_state.specs.State.{Formed, SomeProcedure};
ghost use Rattle.run_state.specs.ScopeValues.{values_of, width_of, scope_at, Bounded, Scoped, Coefficients};

use crate::frames;
use program_readers::inside;
use program_readers::kinds::Op;
use program_readers::places::{Procedure, Sizes, Vertex};

const MOST_VALUE: i64 = 1000000000000;

const LEAST_VALUE: i64 = -1000000000000;

// The columns of a call: the first numbers of the globals, and then numbers of the frames from a place on.
#[derive(Clone, Copy)]
pub struct Scope {
    pub globals: usize,
    pub from: usize,
    pub locals: usize,
}

// The columns of the top one of so many calls.
pub fn scope_of(program: &[i32], sizes: Sizes, frames: &[i64], depth: usize) -> Scope
    requires formed { Formed program.now sizes }
    requires le_depth { (1 ≤ depth) × (depth ≤ most_calls) }
    requires frames_len { length frames.now ≡ frames_size }
    requires some_procedure { SomeProcedure program.now (procedure_in frames.now (depth - 1)) }
    ensures { result ≡ scope_at program.now frames.now depth }
{
    let top = depth - 1;
    let procedure = frames::procedure_in(frames, top);
    Scope {
        globals: sizes.globals,
        from: frames::frame_place(top) + 2,
        locals: inside::locals_inside(program, sizes, procedure),
    }
}

// x op 0. Of a choice, which compares nothing, the outcome isn't looked at.
pub(crate) fn compares(op: Op, x: i64) -> bool
    ensures { result ≡ program.compares (comparison (op_number op)) x }
{
    match op {
        Op::Less => x < 0,
        Op::Greater => 0 < x,
        Op::AtMost => x <= 0,
        Op::AtLeast => 0 <= x,
        Op::Equal => x == 0,
        Op::Different | Op::Choice => x != 0,
    }
}

// The value is within ±1,000,000,000,000.
pub(crate) fn is_small(x: i64) -> bool
    ensures { result ≡ small value_limit x }
{
    (LEAST_VALUE <= x) & (x <= MOST_VALUE)
}

// So many values from a place on are.
pub(crate) fn all_small(values: &[i64], from: usize, count: usize) -> bool
    requires { from + count ≤ length values.now }
    ensures { result ≡ all_values value_limit (take count (drop from values.now)) }
{
    let mut all = true;
    for i in 0..count {
        let one = is_small(values[from + i]);
        all = all & one;
    }
    all
}

// The sum and, for so many values from a place on, coefficient times value; the coefficients stand from `at` on.
fn add_products(
    program: &[i32],
    at: usize,
    values: &[i64],
    from: usize,
    count: usize,
    sum: i64,
) -> i64
    requires coefficients { Coefficients program.now at count sum }
    requires bounded { Bounded values.now from count }
    ensures { result ≡ sum +ℤ dot (take count (drop at program.now)) (take count (drop from values.now)) }
{
    let mut total = sum;
    for i in 0..count {
        total = numbers::add_mul(total, numbers::wide(program, at + i), values[from + i]);
    }
    total
}

// The value of the expression at a place.
pub(crate) fn value_at(
    program: &[i32],
    at: usize,
    globals: &[i64],
    frames: &[i64],
    scope: Scope,
) -> i64
    requires expression { Expression program.now at (width_of scope) }
    requires scoped { Scoped globals.now frames.now scope }
    ensures { result ≡ value (expression program.now (width_of scope) at) (values_of globals.now frames.now scope) }
{
    let g = scope.globals;
    let constant = numbers::constant_at(program, at);
    let from = reading::coefficients_from(at);
    let sum = add_products(program, from, globals, 0, g, constant);
    add_products(program, from + g, frames, scope.from, scope.locals, sum)
}

// The frame of a call that is entered: its procedure, the vertex at which the caller waits, the values of so many expressions, and then 0.
pub(crate) fn entered_frame(
    program: &[i32],
    at: usize,
    globals: &[i64],
    frames: &[i64],
    scope: Scope,
    callee: Procedure,
    vertex: Vertex,
    count: usize,
) -> [i64; 10]
    requires expressions { Expressions program.now at (width_of scope) count }
    requires scoped { Scoped globals.now frames.now scope }
    requires count_le_most_locals { count ≤ most_locals }
    requires callee_le_most_procedures { (callee.0 ≤ most_procedures) × (vertex.0 ≤ most_vertices) }
    ensures { result ≡ padded frame_size (pos callee.0 ∷ pos vertex.0 ∷ values (rows_of (width_of scope) count (drop at program.now)) (values_of globals.now frames.now scope)) }
{
    let width = reading::row_words(scope.globals + scope.locals);
    let mut frame = [0i64; 10];
    frame[0] = callee.0 as i64;
    frame[1] = vertex.0 as i64;
    for i in 0..count {
        frame[2 + i] = value_at(program, at + i * width, globals, frames, scope);
    }
    frame
}

// The same frame with so many words, the values of the other locals, behind so many arguments.
pub(crate) fn filled_frame(frame: [i64; 10], count: usize, left: &[i32], others: usize) -> [i64; 10]
    requires frame_len { length frame ≡ frame_size }
    requires others_bound { count + others ≤ most_locals }
    requires others_in_bounds { others ≤ length left.now }
    ensures { result ≡ paste frame (2 + count) left.now others }
{
    let mut filled = frame;
    let from = 2 + count;
    for i in 0..others {
        filled[from + i] = numbers::wide(left, i);
    }
    filled
}
