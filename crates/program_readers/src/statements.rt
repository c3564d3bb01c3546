// The rows of a program's statements, each read once and by value, one struct for each kind. What is `pub` here is public for the crates above.
// The program has the form, so that the words of a row are there, and no place is tested. A reader of one kind doesn't read the kind.
ghost use Rattle.std.specs.Prelude.{◌≡◌, ◌+◌, ◌≤◌};
ghost use Rattle.words.specs.Limits.{most_procedures, most_globals, most_locals};
ghost use Rattle.programs.specs.Decode.{fields_of, statement_row};
ghost use Rattle.program_readers.specs.Inside.{AtStatement, StatementOf};
ghost use Rattle.program_readers.specs.Rows.{skip_at, assign_at, branch_at, assert_at, call_at, fields_meaning, row_meaning};

use crate::inside::{fields_inside, number_inside, op_inside};
use crate::kinds::{Kind, Op};
use crate::places::{Procedure, Sizes, Vertex};
use crate::readers;

// Statements and exits.
const MOST_VERTICES: usize = 1056;

const MOST_PROCEDURES: usize = 32;

// Globals and locals.
const MOST_COLUMNS: usize = 16;

// How many fields a row has before its expressions, by its kind.
const ASSIGN_FIELDS: usize = 2;

const BRANCH_FIELDS: usize = 3;

const ASSERT_FIELDS: usize = 2;

const CALL_FIELDS: usize = 2;

#[derive(Clone, Copy)]
pub struct SkipRow {
    pub next: Vertex,
}

// Here and below, `at` is where the statement's expressions begin.
#[derive(Clone, Copy)]
pub struct AssignRow {
    pub next: Vertex,
    pub column: usize,
    pub at: usize,
}

#[derive(Clone, Copy)]
pub struct BranchRow {
    pub yea: Vertex,
    pub nay: Vertex,
    pub op: Op,
    pub at: usize,
}

#[derive(Clone, Copy)]
pub struct AssertRow {
    pub next: Vertex,
    pub op: Op,
    pub at: usize,
}

#[derive(Clone, Copy)]
pub struct CallRow {
    pub back: Vertex,
    pub callee: Procedure,
    pub at: usize,
}

// The fields of a statement's row.
#[derive(Drop)]
pub enum Fields {
    Skip(SkipRow),
    Assign(AssignRow),
    Branch(BranchRow),
    Assert(AssertRow),
    Call(CallRow),
}

// A statement's row, read once.
#[derive(Drop)]
pub struct StatementRow {
    pub line: usize,
    pub fields: Fields,
}

pub fn skip_row(program: &[i32], sizes: Sizes, v: Vertex) -> SkipRow
    requires { StatementOf program.now sizes v.0 Kind.Skip }
    ensures { result ≡ skip_at program.now v.0 }
{
    SkipRow {
        next: Vertex(number_inside(program, fields_inside(program, sizes, v), MOST_VERTICES)),
    }
}

pub fn assign_row(program: &[i32], sizes: Sizes, v: Vertex) -> AssignRow
    requires { StatementOf program.now sizes v.0 Kind.Assign }
    ensures value { result ≡ assign_at program.now v.0 }
    ensures column_bound { result.column ≤ most_globals + most_locals }
{
    let fields = fields_inside(program, sizes, v);
    AssignRow {
        next: Vertex(number_inside(program, fields, MOST_VERTICES)),
        column: number_inside(program, fields + 1, MOST_COLUMNS),
        at: fields + ASSIGN_FIELDS,
    }
}

pub fn branch_row(program: &[i32], sizes: Sizes, v: Vertex) -> BranchRow
    requires { StatementOf program.now sizes v.0 Kind.Branch }
    ensures { result ≡ branch_at program.now v.0 }
{
    let fields = fields_inside(program, sizes, v);
    BranchRow {
        yea: Vertex(number_inside(program, fields, MOST_VERTICES)),
        nay: Vertex(number_inside(program, fields + 1, MOST_VERTICES)),
        op: op_inside(program, fields + 2),
        at: fields + BRANCH_FIELDS,
    }
}

pub fn assert_row(program: &[i32], sizes: Sizes, v: Vertex) -> AssertRow
    requires { StatementOf program.now sizes v.0 Kind.Assert }
    ensures { result ≡ assert_at program.now v.0 }
{
    let fields = fields_inside(program, sizes, v);
    AssertRow {
        next: Vertex(number_inside(program, fields, MOST_VERTICES)),
        op: op_inside(program, fields + 1),
        at: fields + ASSERT_FIELDS,
    }
}

pub fn call_row(program: &[i32], sizes: Sizes, v: Vertex) -> CallRow
    requires { StatementOf program.now sizes v.0 Kind.Call }
    ensures value { result ≡ call_at program.now v.0 }
    ensures callee_le_most_procedures { result.callee.0 ≤ most_procedures }
{
    let fields = fields_inside(program, sizes, v);
    CallRow {
        back: Vertex(number_inside(program, fields, MOST_VERTICES)),
        callee: Procedure(number_inside(program, fields + 1, MOST_PROCEDURES)),
        at: fields + CALL_FIELDS,
    }
}

// The fields of any statement's row, by its kind.
#[tactic(auto, using(crate::specs::Kinds::op_word), unfolding(programs::specs::Decode::fields_of, programs::specs::ProgramWords::by_kind))]
fn statement_fields(program: &[i32], sizes: Sizes, v: Vertex) -> Fields
    requires { AtStatement program.now sizes v.0 }
    ensures { fields_meaning result ≡ fields_of program.now v.0 }
{
    // Read with a test of its place: without one the replay, which is compiled into the same machine function, takes 4 % more instructions.
    let kind = readers::kind_of(program, v);
    match kind {
        Some(Kind::Skip) => Fields::Skip(skip_row(program, sizes, v)),
        Some(Kind::Assign) => Fields::Assign(assign_row(program, sizes, v)),
        Some(Kind::Branch) => Fields::Branch(branch_row(program, sizes, v)),
        Some(Kind::Assert) => Fields::Assert(assert_row(program, sizes, v)),
        Some(Kind::Call) => Fields::Call(call_row(program, sizes, v)),
        _ => Fields::Skip(SkipRow { next: Vertex(0) }),
    }
}

// The row of any statement: its line, and its fields by its kind.
#[tactic(auto, unfolding(programs::specs::Decode::statement_row))]
pub fn statement_row(program: &[i32], sizes: Sizes, v: Vertex) -> StatementRow
    requires { AtStatement program.now sizes v.0 }
    ensures { row_meaning result ≡ statement_row program.now v.0 }
{
    let line = readers::line_at(program, sizes, v);
    let fields = statement_fields(program, sizes, v);
    StatementRow { line, fields }
}
