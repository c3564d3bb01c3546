// Tests 1 and 2. A test computes all its parts and joins them with `&`: every look-up is total, so that no part rests on another.
ghost use Rattle.std.specs.Prelude.{◌≡◌, ◌≤◌};
ghost use Rattle.basics.specs.Lists.{listed};
ghost use Rattle.words.specs.Limits.{most_procedures};
ghost use Rattle.words.specs.Tests.{first_failure};
ghost use Rattle.programs.specs.ProgramWords.{p};
ghost use Rattle.programs.specs.ProgramTests.{sizes_pass, total_passes, rises, exit_passes};
ghost use Rattle.programs.specs.ProgramTests.{exit_test};
ghost use Rattle.program_readers.specs.Sizes.{Header};
ghost use Rattle.answers.specs.Answers.{told};
ghost use Rattle.answers.specs.Tested.{tested};

use crate::fields;
use answers::{Reason, Refusal};
use program_readers::places::{Procedure, Sizes};
use program_readers::{places, procedures, readers};

const MOST_STATEMENTS: usize = 1024;

const MOST_PROCEDURES: usize = 32;

const MOST_GLOBALS: usize = 8;

const MOST_LOCALS: usize = 8;

// The pool's words.
const MOST_POOL: usize = 12000;

// ---- 1: sizes and total

#[tactic(auto, unfolding(programs::specs::ProgramTests::sizes_pass))]
pub(crate) fn sizes_pass(program: &[i32]) -> bool
    ensures { result ≡ sizes_pass program.now }
{
    let header = 4 <= program.len();
    let statements = reading::word_within(program, 0, 1, MOST_STATEMENTS);
    let procedures = reading::word_within(program, 1, 1, MOST_PROCEDURES);
    let globals = reading::word_within(program, 2, 0, MOST_GLOBALS);
    let pool = reading::word_within(program, 3, 0, MOST_POOL);
    header & (statements & (procedures & (globals & pool)))
}

#[tactic(auto, unfolding(programs::specs::ProgramTests::total_passes))]
pub(crate) fn total_passes(program: &[i32], sizes: Sizes) -> bool
    requires { Header program.now sizes }
    ensures { result ≡ total_passes program.now }
{
    let vertices = sizes.statements + sizes.procedures;
    program.len() == 4 + vertices + vertices + sizes.pool
}

// ---- 2: exits

// First statements rise strictly from 1.
#[tactic(auto, unfolding(programs::specs::ProgramTests::rises))]
fn first_rises(program: &[i32], sizes: Sizes, q: Procedure) -> bool
    requires header { Header program.now sizes }
    requires le_q { 1 ≤ q.0 }
    requires q_le_most_procedures { q.0 ≤ most_procedures }
    ensures { result ≡ rises program.now q.0 }
{
    let first = readers::first_of(program, sizes, q);
    if q.0 == 1 {
        return first.0 == 1;
    }
    readers::first_of(program, sizes, Procedure(q.0 - 1)).0 < first.0
}

#[tactic(auto, unfolding(programs::specs::ProgramTests::exit_passes))]
fn exit_passes(program: &[i32], sizes: Sizes, q: Procedure) -> bool
    requires header { Header program.now sizes }
    requires le_q { 1 ≤ q.0 }
    requires q_le_most_procedures { q.0 ≤ most_procedures }
    ensures { result ≡ exit_passes program.now q.0 }
{
    let exit = places::exit_of(sizes, q);
    let at = readers::exit_row_at(program, sizes, q);
    let kind = reading::word_within(program, places::kind_place(exit), 6, 6);
    let fits = fields::row_fits(program, sizes, exit, 3);
    let locals = reading::word_within(program, at + 1, 0, MOST_LOCALS);
    let most = readers::locals_of(program, sizes, q);
    let parameters = reading::word_within(program, at + 2, 0, most);
    let first = reading::word_within(program, at, 1, sizes.statements);
    let rises = first_rises(program, sizes, q);
    kind & (fits & (locals & (parameters & (first & rises))))
}

pub(crate) fn exits_tested(program: &[i32], sizes: Sizes) -> Result<(), Refusal>
    requires { Header program.now sizes }
    ensures { told result ≡ tested (first_failure (listed (exit_test program.now) (p program.now))) }
{
    let p = sizes.procedures;
    for i in 0..p {
        let q = Procedure(i + 1);
        if !exit_passes(program, sizes, q) {
            let place = places::kind_place(places::exit_of(sizes, q));
            return Err(Refusal::at(Reason::ExitRow, place));
        }
    }
    Ok(())
}
