// A vertex's kind, where its row begins and a procedure's locals, of a program that has the form. Then all the words that are read are there, and no
// place is tested: each step of a replay reads a kind, a row and the locals. The readers of `readers`, which want no form, test each.
ghost use Rattle.std.specs.Prelude.{◌≡◌, ◌+◌, ◌≤◌, ◌<◌, length};
ghost use Rattle.words.specs.Words.{word, number};
ghost use Rattle.programs.specs.ProgramWords.{n, p, kind, row, fields, locals};
ghost use Rattle.programs.specs.ProgramForm.{ProgramForm};
ghost use Rattle.program_readers.specs.Sizes.{Header};
ghost use Rattle.program_readers.specs.Kinds.{kind_value, op_named};
ghost use Rattle.program_readers.specs.Inside.{AtStatement};

use crate::kinds::{Kind, Op};
use crate::places;
use crate::places::{Procedure, Sizes, Vertex};
use crate::readers::LINE_WORDS;

const MOST_KIND: usize = 6;

const MOST_OP: usize = 6;

const MOST_LOCALS: usize = 8;

// The pool's words.
const MOST_POOL: usize = 12000;

// The number that the word at a place is, where it is one of 0..=most; else 0.
pub(crate) fn number_inside(program: &[i32], at: usize, most: usize) -> usize
    requires { at < length program.now }
    ensures value { result ≡ number most (word program.now at) }
    ensures upper_bound { result ≤ most }
{
    reading::number_of(program[at], most)
}

// The number is matched here and not by `try_from`, with which a replay took 4 % more instructions (counted in a build that wasn't proved).
pub fn kind_inside(program: &[i32], v: Vertex) -> Option<Kind>
    requires program_form { ProgramForm program.now }
    requires le_v { 1 ≤ v.0 }
    requires v_bound { v.0 ≤ n program.now + p program.now }
    ensures { kind_value result ≡ kind program.now v.0 }
{
    match number_inside(program, places::kind_place(v), MOST_KIND) {
        1 => Some(Kind::Skip),
        2 => Some(Kind::Assign),
        3 => Some(Kind::Branch),
        4 => Some(Kind::Assert),
        5 => Some(Kind::Call),
        6 => Some(Kind::Exit),
        _ => None,
    }
}

// The op that a word names.
#[tactic(auto, unfolding(crate::specs::Kinds::op_named))]
pub(crate) fn op_inside(program: &[i32], at: usize) -> Op
    requires { at < length program.now }
    ensures { result ≡ op_named (number 6 (word program.now at)) }
{
    match number_inside(program, at, MOST_OP) {
        0 => Op::Choice,
        1 => Op::Less,
        2 => Op::Greater,
        3 => Op::AtMost,
        4 => Op::AtLeast,
        5 => Op::Equal,
        _ => Op::Different,
    }
}

// Where the row of a vertex begins.
#[tactic(auto, unfolding(programs::specs::ProgramWords::row))]
fn row_inside(program: &[i32], sizes: Sizes, v: Vertex) -> usize
    requires header { Header program.now sizes × ProgramForm program.now }
    requires le_v { 1 ≤ v.0 }
    requires v_bound { v.0 ≤ n program.now + p program.now }
    ensures value { result ≡ row program.now v.0 }
    ensures upper_bound { result ≤ 14116 }
{
    let vertices = sizes.statements + sizes.procedures;
    let place = number_inside(program, places::row_place(sizes, v), MOST_POOL);
    4 + vertices + vertices + place
}

// Where the fields of a statement's row begin: behind its line.
#[tactic(auto, unfolding(programs::specs::ProgramWords::fields))]
pub(crate) fn fields_inside(program: &[i32], sizes: Sizes, v: Vertex) -> usize
    requires { AtStatement program.now sizes v.0 }
    ensures value { result ≡ fields program.now v.0 }
    ensures upper_bound { result ≤ 14117 }
{
    row_inside(program, sizes, v) + LINE_WORDS
}

// How many locals a procedure has.
pub fn locals_inside(program: &[i32], sizes: Sizes, q: Procedure) -> usize
    requires header { Header program.now sizes × ProgramForm program.now }
    requires le_q { (1 ≤ q.0) × (q.0 ≤ p program.now) }
    ensures { result ≡ locals program.now q.0 }
{
    let row = row_inside(program, sizes, places::exit_of(sizes, q));
    number_inside(program, row + 1, MOST_LOCALS)
}
