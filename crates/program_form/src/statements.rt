// Test 3, statement by statement.
ghost use Rattle.std.specs.Prelude.{◌≡◌, ◌≤◌};
ghost use Rattle.basics.specs.Lists.{listed};
ghost use Rattle.words.specs.Tests.{first_failure};
ghost use Rattle.programs.specs.ProgramWords.{n, field_words};
ghost use Rattle.programs.specs.ProgramTests.{successor_passes};
ghost use Rattle.programs.specs.ProgramTests.{skip_passes, assign_passes, branch_passes, assert_passes, call_passes, statement_passes, statement_test};
ghost use Rattle.program_readers.specs.Sizes.{Header};
ghost use Rattle.program_readers.specs.Owners.{Owners, IsStatement};
ghost use Rattle.answers.specs.Answers.{told};
ghost use Rattle.answers.specs.Tested.{tested};

use crate::fields;
use answers::{Reason, Refusal};
use program_readers::kinds::Kind;
use program_readers::places::{Sizes, Vertex};
use program_readers::readers::LINE_WORDS;
use program_readers::{places, procedures, readers};

// A field of the statement's row is a vertex of the same procedure.
#[tactic(auto, unfolding(programs::specs::ProgramTests::successor_passes, programs::specs::ProgramTests::same_procedure))]
fn successor_passes(program: &[i32], sizes: Sizes, owners: &[usize], v: Vertex, i: usize) -> bool
    requires statement { IsStatement program.now sizes owners.now v.0 }
    requires i_bound { i ≤ 1 }
    ensures { result ≡ successor_passes program.now v.0 i }
{
    let w = readers::vertex_at(program, readers::fields_at(program, sizes, v) + i);
    // Vertex 0 is in no procedure, and the table has no entry for it.
    if w.0 == 0 {
        return false;
    }
    let its = procedures::procedure_of(sizes, owners, w);
    let mine = procedures::procedure_of(sizes, owners, v);
    (w.0 <= sizes.statements + sizes.procedures) & (its.0 == mine.0)
}

#[tactic(auto, unfolding(programs::specs::ProgramTests::skip_passes))]
fn skip_passes(program: &[i32], sizes: Sizes, owners: &[usize], v: Vertex) -> bool
    requires { IsStatement program.now sizes owners.now v.0 }
    ensures { result ≡ skip_passes program.now v.0 }
{
    successor_passes(program, sizes, owners, v, 0)
}

#[tactic(auto, unfolding(programs::specs::ProgramTests::assign_passes))]
fn assign_passes(program: &[i32], sizes: Sizes, owners: &[usize], v: Vertex) -> bool
    requires { IsStatement program.now sizes owners.now v.0 }
    ensures { result ≡ assign_passes program.now v.0 }
{
    let k = procedures::k_of(program, sizes, owners, v);
    let at = readers::fields_at(program, sizes, v);
    let successor = successor_passes(program, sizes, owners, v, 0);
    let column = reading::word_below(program, at + 1, k);
    let expression = reading::row_passes(program, at + 2, k);
    successor & (column & expression)
}

#[tactic(auto, unfolding(programs::specs::ProgramTests::branch_passes))]
fn branch_passes(program: &[i32], sizes: Sizes, owners: &[usize], v: Vertex) -> bool
    requires { IsStatement program.now sizes owners.now v.0 }
    ensures { result ≡ branch_passes program.now v.0 }
{
    let k = procedures::k_of(program, sizes, owners, v);
    let at = readers::fields_at(program, sizes, v);
    let when_true = successor_passes(program, sizes, owners, v, 0);
    let when_false = successor_passes(program, sizes, owners, v, 1);
    let condition = fields::condition_passes(program, 0, at + 2, k);
    when_true & (when_false & condition)
}

#[tactic(auto, unfolding(programs::specs::ProgramTests::assert_passes))]
fn assert_passes(program: &[i32], sizes: Sizes, owners: &[usize], v: Vertex) -> bool
    requires { IsStatement program.now sizes owners.now v.0 }
    ensures { result ≡ assert_passes program.now v.0 }
{
    let k = procedures::k_of(program, sizes, owners, v);
    let at = readers::fields_at(program, sizes, v);
    let successor = successor_passes(program, sizes, owners, v, 0);
    let condition = fields::condition_passes(program, 1, at + 1, k);
    successor & condition
}

#[tactic(auto, unfolding(programs::specs::ProgramTests::call_passes))]
fn call_passes(program: &[i32], sizes: Sizes, owners: &[usize], v: Vertex) -> bool
    requires { IsStatement program.now sizes owners.now v.0 }
    ensures { result ≡ call_passes program.now v.0 }
{
    let k = procedures::k_of(program, sizes, owners, v);
    let at = readers::fields_at(program, sizes, v);
    let return_point = successor_passes(program, sizes, owners, v, 0);
    let known = reading::word_within(program, at + 1, 1, sizes.procedures);
    let callee = readers::procedure_at(program, at + 1);
    let count = readers::parameters_of(program, sizes, callee);
    let actuals = reading::rows_pass(program, at + 2, k, count);
    return_point & (known & actuals)
}

// How many words the fields of a statement's row take.
#[tactic(auto, unfolding(programs::specs::ProgramWords::field_words, programs::specs::ProgramWords::by_kind))]
fn field_words(program: &[i32], sizes: Sizes, owners: &[usize], v: Vertex) -> usize
    requires { IsStatement program.now sizes owners.now v.0 }
    ensures value { result ≡ field_words program.now v.0 }
    ensures upper_bound { result ≤ 999 }
{
    let expression = reading::row_words(procedures::k_of(program, sizes, owners, v));
    let at = readers::fields_at(program, sizes, v);
    let callee = readers::procedure_at(program, at + 1);
    let kind = readers::kind_of(program, v);
    match kind {
        Some(Kind::Skip) => 1,
        Some(Kind::Assign) => 2 + expression,
        Some(Kind::Branch) => 3 + expression,
        Some(Kind::Assert) => 2 + expression,
        Some(Kind::Call) => 2 + readers::parameters_of(program, sizes, callee) * expression,
        _ => 0,
    }
}

#[tactic(auto, unfolding(programs::specs::ProgramTests::statement_passes, programs::specs::ProgramWords::by_kind))]
fn statement_passes(program: &[i32], sizes: Sizes, owners: &[usize], v: Vertex) -> bool
    requires { IsStatement program.now sizes owners.now v.0 }
    ensures { result ≡ statement_passes program.now v.0 }
{
    let size = LINE_WORDS + field_words(program, sizes, owners, v);
    let fits = fields::row_fits(program, sizes, v, size);
    let line = fields::line_passes(program, sizes, v);
    let kind = readers::kind_of(program, v);
    match kind {
        Some(Kind::Skip) => fits & (line & skip_passes(program, sizes, owners, v)),
        Some(Kind::Assign) => fits & (line & assign_passes(program, sizes, owners, v)),
        Some(Kind::Branch) => fits & (line & branch_passes(program, sizes, owners, v)),
        Some(Kind::Assert) => fits & (line & assert_passes(program, sizes, owners, v)),
        Some(Kind::Call) => fits & (line & call_passes(program, sizes, owners, v)),
        _ => false,
    }
}

pub fn statements_tested(program: &[i32], sizes: Sizes, owners: &[usize]) -> Result<(), Refusal>
    requires header { Header program.now sizes }
    requires owners { Owners program.now owners.now }
    ensures { told result ≡ tested (first_failure (listed (statement_test program.now) (n program.now))) }
{
    let n = sizes.statements;
    for i in 0..n {
        let v = Vertex(i + 1);
        if !statement_passes(program, sizes, owners, v) {
            let line = fields::row_line(program, sizes, v);
            let refusal = Refusal::at(Reason::StatementRow, places::kind_place(v));
            return Err(Refusal { line, ..refusal });
        }
    }
    Ok(())
}
