// The entries of a certificate cut down to the kept disjuncts, with dense rows: their counts, their places and their row words. `kept` has a byte for
// each disjunct that an entry may have, and 1 is for one that is kept.
#![tactic(auto)]

ghost use Rattle.std.specs.Prelude.{◌≡◌, List, ◌^◌, ◌+◌, ◌≤◌, ℤ, pos, length, set};
ghost use Rattle.std.proofs.lemmas.List.Edits.{sets};
ghost use Rattle.words.specs.declared.StoredForm.TheVariants.{Dense};
ghost use Rattle.words.specs.Limits.{most_statements, most_procedures, most_words, most_disjuncts};
ghost use Rattle.certificates.specs.CertificateWords.{stored_form, start_of, row_count, entries};
ghost use Rattle.certificates.specs.CertificateForm.{DisjunctsForm};
ghost use Rattle.certificate_readers.specs.Disjuncts.{RowsInside};
ghost use Rattle.program_readers.specs.Sizes.{Header};
ghost use Rattle.program_readers.specs.Owners.{Owners};
ghost use Rattle.layouts.specs.Layout.{entries_code, count_words, places_from};
ghost use Rattle.entailment_sources.specs.KeptBytes.{most_bytes};
ghost use Rattle.layout_writers.specs.Given.{Given};
ghost use Rattle.kept_rows.specs.KeptCode.{dense_rows, dense_disjunct, kept_disjunct, kept_disjuncts};
ghost use Rattle.kept_rows.specs.KeptEntries.{trimmed_entries};

use certificate_form::edge_columns;
use certificate_readers::{
    disjunct_words, entry_count, entry_place, row_count, rows_start, stored_form,
};
use entailment_sources::new_numbers::new_number;
use layout_writers::{copy_words, write_rows};
use program_readers::places::Sizes;
use words::StoredForm;

const KEPT: u8 = 1;

const MOST_DISJUNCTS: usize = 8;

// A number, where the buffer has such a word.
fn store(buffer: &mut [i32], slot: usize, number: usize)
    requires { number ≤ 2 ^ 30 }
    ensures { buffer.new ≡ set buffer.old slot (pos number) }
{
    if buffer.len() <= slot {
        return;
    }
    buffer[slot] = number as i32;
}

// So many rows from `at` on, as dense ones.
fn write_dense_rows(
    rows: &[i32],
    at: usize,
    columns: usize,
    count: usize,
    form: StoredForm,
    buffer: &mut [i32],
    to: usize,
)
    requires columns_bound { columns ≤ 64 }
    requires rows_inside { RowsInside form columns rows.now at count }
    requires count_in_bounds { to + length (dense_rows form columns rows.now at count) ≤ length buffer.old }
    ensures { buffer.new ≡ sets buffer.old to (dense_rows form columns rows.now at count) }
{
    match form {
        StoredForm::Dense => {
            let size = count * reading::row_words(columns);
            copy_words(rows, at, size, buffer, to);
        }
        StoredForm::Sparse => {
            let written = write_rows(rows, at, columns, count, form, buffer, to);
        }
    }
}

// The disjunct at `at` with dense rows, where it fits, and how many words it takes: its row count, and its rows.
fn write_disjunct(
    rows: &[i32],
    at: usize,
    columns: usize,
    form: StoredForm,
    buffer: &mut [i32],
    to: usize,
) -> usize
    requires columns_bound { columns ≤ 64 }
    requires rows_inside { RowsInside form columns rows.now (at + 1) (row_count rows.now at) }
    requires to_bound { to ≤ 2 ^ 32 }
    ensures value { result ≡ length (dense_disjunct form columns rows.now at) }
    ensures upper_bound { result ≤ 2113 }
    ensures buffer_after { to + length (dense_disjunct form columns rows.now at) ≤ length buffer.old → buffer.new ≡ sets buffer.old to (dense_disjunct form columns rows.now at) }
{
    let count = row_count(rows, at);
    let size = count * reading::row_words(columns);
    let total = 1 + size;
    if buffer.len() < to + total {
        return total;
    }
    buffer[to] = count as i32;
    write_dense_rows(rows, at + 1, columns, count, form, buffer, to + 1);
    total
}

// The disjunct at `at` where its byte is 1, and else nothing.
fn write_kept(
    byte: u8,
    rows: &[i32],
    at: usize,
    columns: usize,
    form: StoredForm,
    buffer: &mut [i32],
    to: usize,
) -> usize
    requires columns_bound { columns ≤ 64 }
    requires rows_inside { RowsInside form columns rows.now (at + 1) (row_count rows.now at) }
    requires to_bound { to ≤ 2 ^ 32 }
    ensures value { result ≡ length (kept_disjunct byte form columns rows.now at) }
    ensures upper_bound { result ≤ 2113 }
    ensures buffer_after { to + length (kept_disjunct byte form columns rows.now at) ≤ length buffer.old → buffer.new ≡ sets buffer.old to (kept_disjunct byte form columns rows.now at) }
{
    if byte == KEPT {
        return write_disjunct(rows, at, columns, form, buffer, to);
    }
    0
}

// The kept ones of so many disjuncts from `at` on, where they fit, and how many words they take.
fn write_disjuncts(
    rows: &[i32],
    at: usize,
    columns: usize,
    count: usize,
    form: StoredForm,
    flags: &[u8],
    buffer: &mut [i32],
    to: usize,
) -> usize
    requires columns_bound { columns ≤ 64 }
    requires count_le_most_disjuncts { (count ≤ most_disjuncts) × (at ≤ most_words) × (to ≤ 2 ^ 31) }
    requires count_in_bounds { count ≤ length flags.now }
    requires disjuncts_form { DisjunctsForm form rows.now columns count at }
    ensures value { result ≡ length (kept_disjuncts flags.now form columns rows.now at 0 count) }
    ensures upper_bound { result ≤ 16904 }
    ensures buffer_after { to + length (kept_disjuncts flags.now form columns rows.now at 0 count) ≤ length buffer.old → buffer.new ≡ sets buffer.old to (kept_disjuncts flags.now form columns rows.now at 0 count) }
{
    let mut from = at;
    let mut size = 0;
    for j in 0..count {
        let byte = flags[j];
        let written = write_kept(byte, rows, from, columns, form, buffer, to + size);
        let taken = disjunct_words(rows, columns, from, form);
        size = size + written;
        from = from + taken;
    }
    size
}

// How many disjuncts each entry keeps, in the words behind the header.
pub fn write_counts(sizes: Sizes, certificate: &[i32], kept: &[u8], buffer: &mut [i32])
    requires statements_le_most_statements { (sizes.statements ≤ most_statements) × (sizes.procedures ≤ most_procedures) }
    requires kept_len { length kept.now ≡ most_bytes }
    ensures { (program : List ℤ) → Header program sizes → buffer.new ≡ sets buffer.old 3 (count_words (trimmed_entries program certificate.now sizes kept.now)) }
{
    let entries = sizes.statements + sizes.procedures + sizes.procedures;
    for i in 0..entries {
        let count = entry_count(certificate, i + 1);
        let first = i * MOST_DISJUNCTS;
        let last = first + MOST_DISJUNCTS;
        let number = new_number(&kept[first..last], count);
        store(buffer, 3 + i, number);
    }
}

// The places of all entries behind the counts, and their row words behind the places, where they fit, and how many row words there are: each entry
// stands where those before it end.
pub fn write_entries(
    program: &[i32],
    sizes: Sizes,
    owners: &[usize],
    certificate: &[i32],
    rows: &[i32],
    kept: &[u8],
    buffer: &mut [i32],
) -> usize
    requires given { Given program.now certificate.now (stored_form certificate.now) sizes rows.now }
    requires owners { Owners program.now owners.now }
    requires kept_len { length kept.now ≡ most_bytes }
    ensures value { result ≡ length (entries_code Dense (trimmed_entries program.now certificate.now sizes kept.now)) }
    ensures upper_bound { result ≤ 18391552 }
    ensures buffer_after { start_of (entries program.now certificate.now) + length (entries_code Dense (trimmed_entries program.now certificate.now sizes kept.now)) ≤ length buffer.old → buffer.new ≡ sets (sets buffer.old (3 + entries program.now certificate.now) (places_from Dense 0 (trimmed_entries program.now certificate.now sizes kept.now))) (start_of (entries program.now certificate.now)) (entries_code Dense (trimmed_entries program.now certificate.now sizes kept.now)) }
{
    let form = stored_form(certificate);
    let entries = sizes.statements + sizes.procedures + sizes.procedures;
    let table = 3 + entries;
    let start = rows_start(entries);
    let mut at = 0;
    for i in 0..entries {
        let columns = edge_columns(program, sizes, owners, i + 1);
        let count = entry_count(certificate, i + 1);
        let place = entry_place(certificate, entries, i + 1);
        let first = i * MOST_DISJUNCTS;
        let last = first + MOST_DISJUNCTS;
        store(buffer, table + i, at);
        let to = start + at;
        let written = write_disjuncts(
            rows,
            place,
            columns,
            count,
            form,
            &kept[first..last],
            buffer,
            to,
        );
        at = at + written;
    }
    at
}

// How many row words there are.
pub fn entries_size(
    program: &[i32],
    sizes: Sizes,
    owners: &[usize],
    certificate: &[i32],
    rows: &[i32],
    kept: &[u8],
) -> usize
    requires given { Given program.now certificate.now (stored_form certificate.now) sizes rows.now }
    requires owners { Owners program.now owners.now }
    requires kept_len { length kept.now ≡ most_bytes }
    ensures value { result ≡ length (entries_code Dense (trimmed_entries program.now certificate.now sizes kept.now)) }
    ensures upper_bound { result ≤ 18391552 }
{
    let mut none = [0i32; 0];
    write_entries(program, sizes, owners, certificate, rows, kept, &mut none)
}
