// What a row must be, whatever stands at its vertex: in the pool, and a condition where one is due.
ghost use Rattle.std.specs.Prelude.{◌≡◌, ◌≤◌};
ghost use Rattle.words.specs.Limits.{most_vertices, most_line};
ghost use Rattle.words.specs.Words.{within};
ghost use Rattle.programs.specs.ProgramWords.{line_word};
ghost use Rattle.programs.specs.ProgramTests.{row_fits, row_line, condition_passes};
ghost use Rattle.program_readers.specs.Sizes.{Header};

use program_readers::places::{Sizes, Vertex};
use program_readers::readers::MOST_LINE;
use program_readers::{places, readers};

// The pool's words.
const MOST_POOL: usize = 12000;

// So many words of a vertex's row lie in the pool.
#[tactic(auto, unfolding(programs::specs::ProgramTests::row_fits))]
pub fn row_fits(program: &[i32], sizes: Sizes, v: Vertex, size: usize) -> bool
    requires header { Header program.now sizes }
    requires le_v { 1 ≤ v.0 }
    requires v_le_most_vertices { v.0 ≤ most_vertices }
    requires size_bound { size ≤ 1000 }
    ensures { result ≡ row_fits program.now v.0 size }
{
    let at = places::row_place(sizes, v);
    let inside = reading::word_within(program, at, 0, sizes.pool);
    let place = reading::number_at(program, at, MOST_POOL);
    inside & (place + size <= sizes.pool)
}

// The line that a statement's row begins with is in its range.
pub(crate) fn line_passes(program: &[i32], sizes: Sizes, v: Vertex) -> bool
    requires header { Header program.now sizes }
    requires le_v { 1 ≤ v.0 }
    requires v_le_most_vertices { v.0 ≤ most_vertices }
    ensures { result ≡ within 0 most_line (line_word program.now v.0) }
{
    reading::word_within(program, readers::row_at(program, sizes, v), 0, MOST_LINE)
}

// The line that a statement is refused with: its row's first word, where that is in the pool and in range, and else 0.
#[tactic(auto, unfolding(programs::specs::ProgramTests::row_line))]
pub(crate) fn row_line(program: &[i32], sizes: Sizes, v: Vertex) -> usize
    requires header { Header program.now sizes }
    requires le_v { 1 ≤ v.0 }
    requires v_le_most_vertices { v.0 ≤ most_vertices }
    ensures { result ≡ row_line program.now v.0 }
{
    if row_fits(program, sizes, v, 1) {
        return readers::line_at(program, sizes, v);
    }
    0
}

// op and expression, from a place on: op is one of low..=6, and with `?` the expression is all 0.
#[tactic(auto, unfolding(programs::specs::ProgramTests::condition_passes))]
pub(crate) fn condition_passes(program: &[i32], low: usize, at: usize, columns: usize) -> bool
    requires at_bound { at ≤ 100000 }
    requires columns_bound { columns ≤ 1000 }
    ensures { result ≡ condition_passes program.now low at columns }
{
    let known = reading::word_within(program, at, low, 6);
    let op = reading::number_at(program, at, 6);
    let expression = reading::row_passes(program, at + 1, columns);
    let zero = reading::all_small(program, 0, at + 1, reading::row_words(columns));
    known & (expression & ((1 <= op) | zero))
}
