// Trimming: the certificate cut down to what is used, with dense rows, into a buffer of the caller's. The sizes come first: nothing is written where the
// words don't fit.
#![tactic(auto)]

ghost use Rattle.std.specs.Prelude.{◌≡◌, ℕ, ◌+◌, ◌≤◌, length, get_or};
ghost use Rattle.std.proofs.lemmas.List.Edits.{sets};
ghost use Rattle.words.specs.declared.StoredForm.TheVariants.{Dense};
ghost use Rattle.words.specs.Writing.{buffer_after};
ghost use Rattle.certificates.specs.CertificateWords.{start_of, entries, witness_words};
ghost use Rattle.certificates.specs.CertificateForm.{CertificateForm};
ghost use Rattle.layouts.specs.Layout.{entries_code};
ghost use Rattle.programs.specs.ProgramForm.{ProgramForm};
ghost use Rattle.trimming.specs.Kept.{Exactly};
ghost use Rattle.checker.specs.ListedWitnesses.{AllListed};
ghost use Rattle.program_readers.specs.Sizes.{Header};
ghost use Rattle.program_readers.specs.Owners.{Owners};
ghost use Rattle.entailment_sources.specs.KeptBytes.{most_bytes, flags_in};
ghost use Rattle.used_targets.specs.UseTable.{Tabled};
ghost use Rattle.vertex_entailments.specs.Given.{Given};
ghost use Rattle.answers.specs.Answers.{told};
ghost use Rattle.answers.specs.Written.{writing_for};
ghost use Rattle.trimmed_words.specs.Trim.{trim as trimming};
ghost use Rattle.kept_rows.specs.KeptEntries.{trimmed_entries};
ghost use Rattle.kept_witnesses.specs.PassLaws.{words_left};
ghost use Rattle.trimmer.specs.Selected.{Known, Accepts, Selected, parts_in};

use answers::{Answer, Reason, Refusal};
use certificate_readers::rows_start;
use judge::judge_formed;
use kept_disjuncts::keep_used;
use kept_rows::{entries_size, write_counts, write_entries};
use kept_witnesses::{witnesses_size, write_witnesses};
use layout_writers::write_header;
use program_form::program_tested;
use program_readers::places::Sizes;
use reading::number_at;
use used_targets::table_uses;

const MOST_WORDS: usize = 1000000;

const CERTIFICATE_MARK: i32 = 1;

// Entries of the table of procedures: none, and one for each of at most 1,024 statements.
const OWNER_ENTRIES: usize = 1025;

// A byte for each of at most 9 entailments of each disjunct that a vertex may have.
const TABLE_BYTES: usize = 76032;

// One for each disjunct that an entry may have.
const KEPT_BYTES: usize = 8704;

// The words behind the header, into a buffer that they fit in: counts, places, row words, witness words.
fn write_parts(
    program: &[i32],
    sizes: Sizes,
    owners: &[usize],
    certificate: &[i32],
    rows: &[i32],
    w: &[i32],
    kept: &[u8],
    buffer: &mut [i32],
)
    requires selected { Selected program.now certificate.now sizes rows.now w.now kept.now }
    requires owners { Owners program.now owners.now }
    requires kept_in_bounds { start_of (entries program.now certificate.now) + length (entries_code Dense (trimmed_entries program.now certificate.now sizes kept.now)) + length (words_left program.now certificate.now sizes kept.now) ≤ length buffer.old }
    ensures { buffer.new ≡ parts_in program.now certificate.now sizes kept.now buffer.old }
{
    write_counts(sizes, certificate, kept, buffer);
    let size = write_entries(program, sizes, owners, certificate, rows, kept, buffer);
    let entries = sizes.statements + sizes.procedures + sizes.procedures;
    let end = rows_start(entries) + size;
    let words = write_witnesses(
        program,
        sizes,
        owners,
        certificate,
        rows,
        w,
        kept,
        &mut buffer[end..],
    );
}

// What is answered for an accepted certificate whose least set is found: 26 where the words are too many or don't fit.
fn trim_selected(
    program: &[i32],
    sizes: Sizes,
    owners: &[usize],
    certificate: &[i32],
    rows: &[i32],
    w: &[i32],
    kept: &[u8],
    buffer: &mut [i32],
) -> Result<usize, Refusal>
    requires selected { Selected program.now certificate.now sizes rows.now w.now kept.now }
    requires owners { Owners program.now owners.now }
    ensures value { told result ≡ writing_for (trimming program.now certificate.now (length buffer.old)) }
    ensures buffer_after { buffer.new ≡ buffer_after (trimming program.now certificate.now (length buffer.old)) buffer.old }
{
    let refusal = Refusal::at(Reason::ResultLength, 0);
    let entries = sizes.statements + sizes.procedures + sizes.procedures;
    let start = rows_start(entries);
    let size = entries_size(program, sizes, owners, certificate, rows, kept);
    let words = witnesses_size(program, sizes, owners, certificate, rows, w, kept);
    let total = start + size + words;
    if MOST_WORDS < total {
        return Err(refusal);
    }
    if buffer.len() < total {
        return Err(refusal);
    }
    write_header(CERTIFICATE_MARK, size, words, buffer);
    write_parts(program, sizes, owners, certificate, rows, w, kept, buffer);
    Ok(total)
}

// What is answered for an accepted certificate: its least set is found, from which targets each witness names.
fn trim_accepted(
    program: &[i32],
    sizes: Sizes,
    owners: &[usize],
    certificate: &[i32],
    rows: &[i32],
    w: &[i32],
    buffer: &mut [i32],
) -> Result<usize, Refusal>
    requires known { Known program.now certificate.now sizes rows.now w.now }
    requires owners { Owners program.now owners.now }
    ensures value { told result ≡ writing_for (trimming program.now certificate.now (length buffer.old)) }
    ensures buffer_after { buffer.new ≡ buffer_after (trimming program.now certificate.now (length buffer.old)) buffer.old }
{
    let mut table = [0u8; TABLE_BYTES];
    let start = table_uses(program, sizes, owners, certificate, rows, w, &mut table);
    let mut kept = [0u8; KEPT_BYTES];
    keep_used(
        program,
        sizes,
        owners,
        certificate,
        &table,
        start,
        &mut kept,
    );
    trim_selected(program, sizes, owners, certificate, rows, w, &kept, buffer)
}

// What is answered where the certificate is accepted: its row words and witness words are taken apart.
fn trim_safe(
    program: &[i32],
    sizes: Sizes,
    owners: &[usize],
    certificate: &[i32],
    buffer: &mut [i32],
) -> Result<usize, Refusal>
    requires header { Header program.now sizes }
    requires owners { Owners program.now owners.now }
    requires accepts { Accepts program.now certificate.now }
    ensures value { told result ≡ writing_for (trimming program.now certificate.now (length buffer.old)) }
    ensures buffer_after { buffer.new ≡ buffer_after (trimming program.now certificate.now (length buffer.old)) buffer.old }
{
    let entries = sizes.statements + sizes.procedures + sizes.procedures;
    let start = rows_start(entries);
    let end = start + number_at(certificate, 1, MOST_WORDS);
    trim_accepted(
        program,
        sizes,
        owners,
        certificate,
        &certificate[start..end],
        &certificate[end..],
        buffer,
    )
}

// What is answered for a program that has the form.
fn trim_formed(
    program: &[i32],
    sizes: Sizes,
    owners: &[usize],
    certificate: &[i32],
    buffer: &mut [i32],
) -> Result<usize, Refusal>
    requires header { Header program.now sizes }
    requires owners { Owners program.now owners.now }
    requires program_form { ProgramForm program.now }
    ensures value { told result ≡ writing_for (trimming program.now certificate.now (length buffer.old)) }
    ensures buffer_after { buffer.new ≡ buffer_after (trimming program.now certificate.now (length buffer.old)) buffer.old }
{
    let answer = judge_formed(program, sizes, owners, certificate);
    match answer {
        Answer::Safe(held) => trim_safe(program, sizes, owners, certificate, buffer),
        Answer::Trace(_) => Err(Refusal::at(Reason::Header, 0)),
        Answer::Refused(refusal) => Err(refusal),
    }
}

// An accepted certificate cut down to what is used, dense.
pub fn trim(program: &[i32], certificate: &[i32], buffer: &mut [i32]) -> Result<usize, Refusal>
    ensures value { told result ≡ writing_for (trimming program.now certificate.now (length buffer.old)) }
    ensures buffer_after { buffer.new ≡ buffer_after (trimming program.now certificate.now (length buffer.old)) buffer.old }
{
    let mut owners = [0usize; OWNER_ENTRIES];
    let sizes = program_tested(program, &mut owners)?;
    trim_formed(program, sizes, &owners, certificate, buffer)
}
