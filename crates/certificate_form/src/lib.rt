// Tests 4, 5, 25 and 15 of a certificate of either form, in their order, over all its entries.
// `edge_columns` and `certificate_tested` are public for the crates above. They take the program with its sizes and the table of its procedures, as its own tests give them.
#![tactic(auto)]

ghost use Rattle.std.specs.Prelude.{◌≡◌, List, ◌+◌, ◌^◌, ◌≤◌, ℤ, length};
ghost use Rattle.words.specs.declared.StoredForm.TheVariants.{Dense};
ghost use Rattle.words.specs.Limits.{most_words};
ghost use Rattle.words.specs.Tests.{first_failure};
ghost use Rattle.certificates.specs.CertificateWords.{edge_columns, count_of};
ghost use Rattle.certificates.specs.CertificateTests.{rows_used_of, tests_in};
ghost use Rattle.program_readers.specs.Sizes.{Header};
ghost use Rattle.program_readers.specs.Owners.{Owners};
ghost use Rattle.answers.specs.Answers.{told};
ghost use Rattle.answers.specs.Tested.{tested};
ghost use Rattle.certificate_form.specs.EntryOrder.{entry_tests_of};
ghost use Rattle.certificate_form.specs.FreePlaces.{free_after};
ghost use Rattle.certificate_form.specs.Outcomes.{outcome};

use crate::entries::{entry_passes, entry_varies, header_passes};
use crate::sparse_entries::sparse_tested;
use answers::{Reason, Refusal};
use certificate_readers::rows_start;
use program_readers::places::{Procedure, Sizes, Vertex};
use program_readers::procedures::k_of;
use program_readers::readers::parameters_of;
use reading::number_at;
use words::StoredForm;

pub mod entries;
pub mod sparse_entries;

const MOST_WORDS: usize = 1000000;

// How many columns an entry has: k at entry and k now for a vertex; G and F at entry and G at exit for a summary.
pub fn edge_columns(program: &[i32], sizes: Sizes, owners: &[usize], i: usize) -> usize
    requires header { Header program.now sizes }
    requires owners { Owners program.now owners.now }
    requires le_i { 1 ≤ i }
    requires i_bound { i ≤ sizes.statements + sizes.procedures + sizes.procedures }
    ensures value { (witness : List ℤ) → result ≡ edge_columns program.now witness i }
    ensures upper_bound { result ≤ 64 }
{
    let vertices = sizes.statements + sizes.procedures;
    if i <= vertices {
        let k = k_of(program, sizes, owners, Vertex(i));
        return k + k;
    }
    let parameters = parameters_of(program, sizes, Procedure(i - vertices));
    sizes.globals + parameters + sizes.globals
}

// Tests 5 and 15 of a dense entry, up to the first that fails. It has no next free place.
fn dense_tested(
    rows: &[i32],
    witness: &[i32],
    entries: usize,
    columns: usize,
    free: usize,
    i: usize,
) -> Result<usize, Refusal>
    requires entries_bound { (entries ≤ 2 ^ 32) × (i ≤ 2 ^ 32) }
    requires columns_bound { columns ≤ 64 }
    ensures { told result ≡ outcome (first_failure (entry_tests_of rows.now witness.now entries columns i Dense free)) free }
{
    let place = 2 + i;
    if !entry_passes(rows, witness, entries, columns, i) {
        return Err(Refusal::at(Reason::Entry, place));
    }
    if !entry_varies(rows, witness, entries, columns, i) {
        return Err(Refusal::at(Reason::ConstantRow, place));
    }
    Ok(free)
}

// Tests 5, 25 and 15 of one entry, up to the first that fails; or the next free place behind it, where `free` is the one before it.
fn entry_tested(
    rows: &[i32],
    witness: &[i32],
    entries: usize,
    columns: usize,
    free: usize,
    i: usize,
    form: StoredForm,
) -> Result<usize, Refusal>
    requires entries_bound { (entries ≤ 2 ^ 32) × (i ≤ 2 ^ 32) }
    requires columns_bound { columns ≤ 64 }
    requires free_le_most_words { (free ≤ most_words) × (length rows.now ≤ most_words) }
    ensures { told result ≡ outcome (first_failure (entry_tests_of rows.now witness.now entries columns i form free)) (free_after form rows.now columns (count_of witness.now i) free) }
{
    match form {
        StoredForm::Dense => dense_tested(rows, witness, entries, columns, free, i),
        StoredForm::Sparse => sparse_tested(rows, witness, entries, columns, free, i),
    }
}

// The row words, so many, are used up to `free`, which a sparse certificate's must be to their end.
fn rows_used(free: usize, size: usize, form: StoredForm) -> bool
    ensures { result ≡ rows_used_of form free size }
{
    match form {
        StoredForm::Dense => true,
        StoredForm::Sparse => free == size,
    }
}

// Test 4, then tests 5, 25 and 15 of each entry, then 25 of the row words, up to the first that fails, of a certificate that is read in the form.
pub fn certificate_tested(
    program: &[i32],
    sizes: Sizes,
    owners: &[usize],
    witness: &[i32],
    form: StoredForm,
) -> Result<(), Refusal>
    requires header { Header program.now sizes }
    requires owners { Owners program.now owners.now }
    ensures { told result ≡ tested (first_failure (tests_in program.now witness.now form)) }
{
    let entries = sizes.statements + sizes.procedures + sizes.procedures;
    if !header_passes(witness, entries, form) {
        return Err(Refusal::at(Reason::Header, 0));
    }
    let start = rows_start(entries);
    let size = number_at(witness, 1, MOST_WORDS);
    let end = start + size;
    let mut free = 0;
    for i in 0..entries {
        let columns = edge_columns(program, sizes, owners, i + 1);
        free = entry_tested(
            &witness[start..end],
            witness,
            entries,
            columns,
            free,
            i + 1,
            form,
        )?;
    }
    if !rows_used(free, size, form) {
        return Err(Refusal::at(Reason::SparseRow, 1));
    }
    Ok(())
}
