// How many words rows, disjuncts and entries take in the other form.
ghost use Rattle.std.specs.Prelude.{◌≡◌, ◌+◌, ◌≤◌, length};
ghost use Rattle.words.specs.Limits.{most_words, most_disjuncts};
ghost use Rattle.certificates.specs.CertificateForm.{DisjunctsForm};
ghost use Rattle.program_readers.specs.Owners.{Owners};
ghost use Rattle.certificate_readers.specs.Disjuncts.{RowsInside};
ghost use Rattle.layout_writers.specs.OtherCode.{rows_other, disjuncts_other};
ghost use Rattle.converters.specs.OtherEntries.{entries_other};
ghost use Rattle.layout_writers.specs.Given.{Given};

use certificate_form::edge_columns;
use certificate_readers::{disjunct_words, entry_count, entry_place, row_count};
use program_readers::places::Sizes;
use row_writers::other_size;
use sparse_rows::rows_take;
use words::StoredForm;

// So many rows from `at` on.
fn rows_size(rows: &[i32], at: usize, columns: usize, count: usize, form: StoredForm) -> usize
    requires columns_bound { columns ≤ 64 }
    requires rows_inside { RowsInside form columns rows.now at count }
    ensures value { result ≡ length (rows_other form columns rows.now at count) }
    ensures upper_bound { result ≤ 4192 }
{
    let mut from = at;
    let mut size = 0;
    for i in 0..count {
        let words = other_size(rows, from, columns, form);
        let taken = rows_take(rows, from, columns, 1, form);
        size = size + words;
        from = from + taken;
    }
    size
}

// So many disjuncts from `at` on, each of a row count and its rows.
fn disjuncts_size(rows: &[i32], at: usize, columns: usize, count: usize, form: StoredForm) -> usize
    requires columns_bound { columns ≤ 64 }
    requires count_le_most_disjuncts { (count ≤ most_disjuncts) × (at ≤ most_words) }
    requires disjuncts_form { DisjunctsForm form rows.now columns count at }
    ensures value { result ≡ length (disjuncts_other form columns rows.now at count) }
    ensures upper_bound { result ≤ 33544 }
{
    let mut from = at;
    let mut size = 0;
    for i in 0..count {
        let n = row_count(rows, from);
        let words = rows_size(rows, from + 1, columns, n, form);
        let taken = disjunct_words(rows, columns, from, form);
        size = size + (1 + words);
        from = from + taken;
    }
    size
}

// All entries.
pub(crate) fn entries_size(
    program: &[i32],
    sizes: Sizes,
    owners: &[usize],
    certificate: &[i32],
    rows: &[i32],
    form: StoredForm,
) -> usize
    requires given { Given program.now certificate.now form sizes rows.now }
    requires owners { Owners program.now owners.now }
    ensures value { result ≡ length (entries_other program.now certificate.now form 0) }
    ensures upper_bound { result ≤ 36495872 }
{
    let entries = sizes.statements + sizes.procedures + sizes.procedures;
    let mut size = 0;
    for i in 0..entries {
        let columns = edge_columns(program, sizes, owners, i + 1);
        let count = entry_count(certificate, i + 1);
        let place = entry_place(certificate, entries, i + 1);
        let words = disjuncts_size(rows, place, columns, count, form);
        size = size + words;
    }
    size
}
