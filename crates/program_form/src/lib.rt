// The form of a program: tests 1, 2 and 3, in their order. `program_tested` is public for the crates above.
#![tactic(auto)]

ghost use Rattle.std.specs.Prelude.{◌≡◌, ◌<◌, length};
ghost use Rattle.words.specs.Limits.{most_statements};
ghost use Rattle.program_readers.specs.Owners.{Owners};
ghost use Rattle.answers.specs.Answers.{told};
ghost use Rattle.program_form.specs.Form.{program_form};

use answers::{Reason, Refusal};
use program_readers::places::Sizes;
use program_readers::{places, procedures};

pub mod fields;
pub mod statements;
pub mod tests;

// The program's sizes, with the procedure of each statement in the table; or the refusal. What the table holds after a refusal is left open, and
// else at entry 0 and behind the statements.
pub fn program_tested(program: &[i32], owners: &mut [usize]) -> Result<Sizes, Refusal>
    requires { most_statements < length owners.old }
    ensures value { told result ≡ program_form program.now }
    ensures owners { (sizes : Sizes) → result ≡ Ok sizes → Owners program.now owners.new }
    ensures owners_len_unchanged { length owners.new ≡ length owners.old }
{
    let wrong_size = Refusal::at(Reason::ProgramSizes, 0);
    if !tests::sizes_pass(program) {
        return Err(wrong_size);
    }
    let sizes = places::sizes_of(program);
    if !tests::total_passes(program, sizes) {
        return Err(wrong_size);
    }
    tests::exits_tested(program, sizes)?;
    procedures::fill_owners(program, sizes, owners);
    statements::statements_tested(program, sizes, owners)?;
    Ok(sizes)
}
