// The conversions of a certificate to the other stored form, into a buffer of the caller's. The sizes come first: nothing is written where the words
// don't fit.
#![tactic(auto)]

mod sizes;
mod writers;

ghost use Rattle.std.specs.Prelude.{◌≡◌, length};
ghost use Rattle.words.specs.Writing.{buffer_after, written};
ghost use Rattle.programs.specs.ProgramForm.{ProgramForm};
ghost use Rattle.program_readers.specs.Sizes.{Header};
ghost use Rattle.program_readers.specs.Owners.{Owners};
ghost use Rattle.conversions.specs.Conversions.{other_words, converted, to_sparse, to_dense};
ghost use Rattle.conversions.specs.RoundTrips.{Fits};
ghost use Rattle.answers.specs.Answers.{told};
ghost use Rattle.answers.specs.Written.{writing_for};
ghost use Rattle.converters.specs.OtherEntries.{entries_other};
ghost use Rattle.layout_writers.specs.Given.{Given};

use crate::sizes::entries_size;
use crate::writers::{other_mark, write_entries};
use answers::{Reason, Refusal};
use certificate_form::certificate_tested;
use certificate_readers::rows_start;
use layout_writers::{copy_words, write_header};
use program_form::program_tested;
use program_readers::places::Sizes;
use reading::number_at;
use words::StoredForm;

const MOST_WORDS: usize = 1000000;

// Entries of the table of procedures: none, and one for each of at most 1,024 statements.
const OWNER_ENTRIES: usize = 1025;

// All words in the other form, `size` of them row words, into a buffer that they fit in: header, counts, places, row words, witness words.
fn write_all(
    program: &[i32],
    sizes: Sizes,
    owners: &[usize],
    certificate: &[i32],
    rows: &[i32],
    form: StoredForm,
    size: usize,
    buffer: &mut [i32],
)
    requires given { Given program.now certificate.now form sizes rows.now }
    requires owners { Owners program.now owners.now }
    requires size_value { size ≡ length (entries_other program.now certificate.now form 0) }
    requires fits { Fits program.now certificate.now form (length buffer.old) }
    ensures { buffer.new ≡ buffer_after (written (other_words program.now certificate.now form)) buffer.old }
{
    let entries = sizes.statements + sizes.procedures + sizes.procedures;
    let start = rows_start(entries);
    let end = start + rows.len();
    let words = certificate.len() - end;
    let mark = other_mark(form);
    write_header(mark, size, words, buffer);
    copy_words(certificate, 3, entries, buffer, 3);
    write_entries(program, sizes, owners, certificate, rows, form, buffer);
    copy_words(certificate, end, words, buffer, start + size);
}

// What is answered for a certificate that has the form: 26 where its words in the other form are too many or don't fit.
fn convert_tested(
    program: &[i32],
    sizes: Sizes,
    owners: &[usize],
    certificate: &[i32],
    rows: &[i32],
    form: StoredForm,
    buffer: &mut [i32],
) -> Result<usize, Refusal>
    requires given { Given program.now certificate.now form sizes rows.now }
    requires owners { Owners program.now owners.now }
    requires program_form { ProgramForm program.now }
    ensures value { told result ≡ writing_for (converted program.now certificate.now form (length buffer.old)) }
    ensures buffer_after { buffer.new ≡ buffer_after (converted program.now certificate.now form (length buffer.old)) buffer.old }
{
    let refusal = Refusal::at(Reason::ResultLength, 0);
    let entries = sizes.statements + sizes.procedures + sizes.procedures;
    let start = rows_start(entries);
    let end = start + rows.len();
    let words = certificate.len() - end;
    let size = entries_size(program, sizes, owners, certificate, rows, form);
    let total = 3 + entries + entries + size + words;
    if MOST_WORDS < total {
        return Err(refusal);
    }
    if buffer.len() < total {
        return Err(refusal);
    }
    write_all(
        program,
        sizes,
        owners,
        certificate,
        rows,
        form,
        size,
        buffer,
    );
    Ok(total)
}

// What is answered where the program has its form.
fn convert_formed(
    program: &[i32],
    sizes: Sizes,
    owners: &[usize],
    certificate: &[i32],
    form: StoredForm,
    buffer: &mut [i32],
) -> Result<usize, Refusal>
    requires header { Header program.now sizes }
    requires owners { Owners program.now owners.now }
    requires program_form { ProgramForm program.now }
    ensures value { told result ≡ writing_for (converted program.now certificate.now form (length buffer.old)) }
    ensures buffer_after { buffer.new ≡ buffer_after (converted program.now certificate.now form (length buffer.old)) buffer.old }
{
    certificate_tested(program, sizes, owners, certificate, form)?;
    let entries = sizes.statements + sizes.procedures + sizes.procedures;
    let start = rows_start(entries);
    let end = start + number_at(certificate, 1, MOST_WORDS);
    convert_tested(
        program,
        sizes,
        owners,
        certificate,
        &certificate[start..end],
        form,
        buffer,
    )
}

// A certificate that is read in the form, written in the other one.
fn convert(
    program: &[i32],
    certificate: &[i32],
    form: StoredForm,
    buffer: &mut [i32],
) -> Result<usize, Refusal>
    ensures value { told result ≡ writing_for (converted program.now certificate.now form (length buffer.old)) }
    ensures buffer_after { buffer.new ≡ buffer_after (converted program.now certificate.now form (length buffer.old)) buffer.old }
{
    let mut owners = [0usize; OWNER_ENTRIES];
    let sizes = program_tested(program, &mut owners)?;
    convert_formed(program, sizes, &owners, certificate, form, buffer)
}

// A dense certificate, with sparse rows.
pub fn to_sparse(program: &[i32], certificate: &[i32], buffer: &mut [i32]) -> Result<usize, Refusal>
    ensures value { told result ≡ writing_for (to_sparse program.now certificate.now (length buffer.old)) }
    ensures buffer_after { buffer.new ≡ buffer_after (to_sparse program.now certificate.now (length buffer.old)) buffer.old }
{
    convert(program, certificate, StoredForm::Dense, buffer)
}

// A sparse certificate, with dense rows.
pub fn to_dense(program: &[i32], certificate: &[i32], buffer: &mut [i32]) -> Result<usize, Refusal>
    ensures value { told result ≡ writing_for (to_dense program.now certificate.now (length buffer.old)) }
    ensures buffer_after { buffer.new ≡ buffer_after (to_dense program.now certificate.now (length buffer.old)) buffer.old }
{
    convert(program, certificate, StoredForm::Sparse, buffer)
}
