// A program's rows, read field by field; whole rows of statements are in `statements`. What is `pub` here is public for the crates above.
// Every look-up is total, so a reader wants the program's sizes and a number in range, and no test passed.
ghost use Rattle.std.specs.Prelude.{◌≡◌, ◌+◌, ◌≤◌};
ghost use Rattle.words.specs.Limits.{most_statements, most_procedures, most_vertices, most_locals};
ghost use Rattle.words.specs.Words.{word, number};
ghost use Rattle.programs.specs.ProgramWords.{n, kind, row, line, fields, first, locals, parameters};
ghost use Rattle.program_readers.specs.Sizes.{Header};
ghost use Rattle.program_readers.specs.Kinds.{kind_value};

use crate::kinds::Kind;
use crate::places;
use crate::places::{Procedure, Sizes, Vertex};

const MOST_STATEMENTS: usize = 1024;

const MOST_PROCEDURES: usize = 32;

// Statements and exits.
const MOST_VERTICES: usize = 1056;

const MOST_KIND: usize = 6;

const MOST_LOCALS: usize = 8;

// The pool's words.
const MOST_POOL: usize = 12000;

pub const MOST_LINE: usize = 1000000;

// The words that a statement's row has before its fields.
pub const LINE_WORDS: usize = 1;

// The kind of a vertex; none where its word is no kind's number.
pub fn kind_of(program: &[i32], v: Vertex) -> Option<Kind>
    requires le_v { 1 ≤ v.0 }
    requires v_le_most_vertices { v.0 ≤ most_vertices }
    ensures { kind_value result ≡ kind program.now v.0 }
{
    Kind::try_from(reading::number_at(program, places::kind_place(v), MOST_KIND)).ok()
}

// Where the row of a vertex begins.
#[tactic(auto, unfolding(programs::specs::ProgramWords::row))]
pub fn row_at(program: &[i32], sizes: Sizes, v: Vertex) -> usize
    requires header { Header program.now sizes }
    requires le_v { 1 ≤ v.0 }
    requires v_le_most_vertices { v.0 ≤ most_vertices }
    ensures value { result ≡ row program.now v.0 }
    ensures upper_bound { result ≤ 14116 }
{
    let vertices = sizes.statements + sizes.procedures;
    let place = reading::number_at(program, places::row_place(sizes, v), MOST_POOL);
    4 + vertices + vertices + place
}

// The line that a statement's row begins with.
#[tactic(auto, unfolding(programs::specs::ProgramWords::line))]
pub fn line_at(program: &[i32], sizes: Sizes, v: Vertex) -> usize
    requires header { Header program.now sizes }
    requires le_v { 1 ≤ v.0 }
    requires v_le_most_vertices { v.0 ≤ most_vertices }
    ensures { result ≡ line program.now v.0 }
{
    reading::number_at(program, row_at(program, sizes, v), MOST_LINE)
}

// Where the fields of a statement's row begin: behind its line.
#[tactic(auto, unfolding(programs::specs::ProgramWords::fields))]
pub fn fields_at(program: &[i32], sizes: Sizes, v: Vertex) -> usize
    requires header { Header program.now sizes }
    requires le_v { 1 ≤ v.0 }
    requires v_le_most_vertices { v.0 ≤ most_vertices }
    ensures value { result ≡ fields program.now v.0 }
    ensures upper_bound { result ≤ 14117 }
{
    row_at(program, sizes, v) + LINE_WORDS
}

// Where the exit row of a procedure begins.
pub fn exit_row_at(program: &[i32], sizes: Sizes, q: Procedure) -> usize
    requires header { Header program.now sizes }
    requires q_le_most_procedures { q.0 ≤ most_procedures }
    ensures value { result ≡ row program.now (n program.now + q.0) }
    ensures upper_bound { result ≤ 14116 }
{
    row_at(program, sizes, places::exit_of(sizes, q))
}

#[tactic(auto, unfolding(programs::specs::ProgramWords::first))]
pub fn first_of(program: &[i32], sizes: Sizes, q: Procedure) -> Vertex
    requires header { Header program.now sizes }
    requires q_le_most_procedures { q.0 ≤ most_procedures }
    ensures result_value { result.0 ≡ first program.now q.0 }
    ensures result_le_most_statements { result.0 ≤ most_statements }
{
    Vertex(reading::number_at(program, exit_row_at(program, sizes, q), MOST_STATEMENTS))
}

#[tactic(auto, unfolding(programs::specs::ProgramWords::locals))]
pub fn locals_of(program: &[i32], sizes: Sizes, q: Procedure) -> usize
    requires header { Header program.now sizes }
    requires q_le_most_procedures { q.0 ≤ most_procedures }
    ensures value { result ≡ locals program.now q.0 }
    ensures upper_bound { result ≤ most_locals }
{
    reading::number_at(program, exit_row_at(program, sizes, q) + 1, MOST_LOCALS)
}

#[tactic(auto, unfolding(programs::specs::ProgramWords::parameters))]
pub fn parameters_of(program: &[i32], sizes: Sizes, q: Procedure) -> usize
    requires header { Header program.now sizes }
    requires q_le_most_procedures { q.0 ≤ most_procedures }
    ensures value { result ≡ parameters program.now q.0 }
    ensures upper_bound { result ≤ most_locals }
{
    reading::number_at(program, exit_row_at(program, sizes, q) + 2, MOST_LOCALS)
}

// The vertex that a word names.
pub fn vertex_at(program: &[i32], at: usize) -> Vertex
    ensures result_value { result.0 ≡ number most_vertices (word program.now at) }
    ensures result_le_most_vertices { result.0 ≤ most_vertices }
{
    Vertex(reading::number_at(program, at, MOST_VERTICES))
}

// The procedure that a word names.
pub fn procedure_at(program: &[i32], at: usize) -> Procedure
    ensures result_value { result.0 ≡ number most_procedures (word program.now at) }
    ensures result_le_most_procedures { result.0 ≤ most_procedures }
{
    Procedure(reading::number_at(program, at, MOST_PROCEDURES))
}
