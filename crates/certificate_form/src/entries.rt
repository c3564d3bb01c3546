// Test 4 of a certificate of either form, and tests 5 and 15 of a dense entry, each by itself. Every look-up is total, so each test is a conjunction of
// its parts, and what a function promises holds for all words.
ghost use Rattle.std.specs.Prelude.{◌≡◌, ◌+◌, ◌^◌, ◌≤◌, drop};
ghost use Rattle.words.specs.declared.StoredForm.TheVariants.{Dense};
ghost use Rattle.words.specs.Limits.{most_disjuncts};
ghost use Rattle.words.specs.RowWords.{row_of, rows_of};
ghost use Rattle.certificates.specs.Certificate.{varies, rows_vary, edges_vary};
ghost use Rattle.certificates.specs.CertificateWords.{mark_of, row_count, disjuncts_of, count_of, place_of};
ghost use Rattle.certificates.specs.CertificateTests.{disjunct_passes, disjuncts_pass, header_passes_of, entry_passes_of};

use certificate_readers::{disjunct_words, entry_count, entry_place, rows_start};
use reading::{number_at, rows_pass, word_small, word_within};
use words::StoredForm;

const MOST_WORDS: usize = 1000000;

const MOST_DISJUNCTS: usize = 8;

const MOST_ROWS: usize = 32;

const CERTIFICATE_MARK: usize = 1;

const SPARSE_MARK: usize = 4;

// The disjunct at `at` has its row count in range, ends in the row words, and has its rows within their limits.
fn disjunct_passes(rows: &[i32], columns: usize, at: usize) -> bool
    requires columns_bound { columns ≤ 64 }
    requires at_bound { at ≤ 2 ^ 40 }
    ensures { result ≡ disjunct_passes Dense rows.now columns at }
{
    let starts = at < rows.len();
    let counted = word_within(rows, at, 0, MOST_ROWS);
    let size = disjunct_words(rows, columns, at, StoredForm::Dense);
    let ends = at + size <= rows.len();
    let count = number_at(rows, at, MOST_ROWS);
    let small = rows_pass(rows, at + 1, columns, count);
    starts & (counted & (ends & small))
}

// So many disjuncts from `at` on, one after the other.
fn disjuncts_pass(rows: &[i32], columns: usize, count: usize, at: usize) -> bool
    requires columns_bound { columns ≤ 64 }
    requires count_le_most_disjuncts { count ≤ most_disjuncts }
    requires at_bound { at ≤ 2 ^ 32 }
    ensures { result ≡ disjuncts_pass Dense rows.now columns count at }
{
    let mut all = true;
    let mut place = at;
    for i in 0..count {
        let one = disjunct_passes(rows, columns, place);
        let size = disjunct_words(rows, columns, place, StoredForm::Dense);
        all = all & one;
        place = place + size;
    }
    all
}

// The mark of a certificate of the form.
fn mark_of(form: StoredForm) -> usize
    ensures { result ≡ mark_of form }
{
    match form {
        StoredForm::Dense => CERTIFICATE_MARK,
        StoredForm::Sparse => SPARSE_MARK,
    }
}

// Test 4: mark, sizes and total.
pub fn header_passes(witness: &[i32], entries: usize, form: StoredForm) -> bool
    requires { entries ≤ 2 ^ 32 }
    ensures { result ≡ header_passes_of form witness.now entries }
{
    let header = 3 <= witness.len();
    let kind = mark_of(form);
    let mark = word_within(witness, 0, kind, kind);
    let rows_range = word_within(witness, 1, 0, MOST_WORDS);
    let witness_range = word_within(witness, 2, 0, MOST_WORDS);
    let start = rows_start(entries);
    let row_words = number_at(witness, 1, MOST_WORDS);
    let witness_words = number_at(witness, 2, MOST_WORDS);
    let total = witness.len() == start + row_words + witness_words;
    let most = witness.len() <= MOST_WORDS;
    header & (mark & (rows_range & (witness_range & (total & most))))
}

// Test 5 of one entry: its count, and, unless that is 0, its place and its disjuncts.
pub fn entry_passes(rows: &[i32], witness: &[i32], entries: usize, columns: usize, i: usize) -> bool
    requires entries_bound { entries ≤ 2 ^ 32 }
    requires columns_bound { columns ≤ 64 }
    requires i_bound { i ≤ 2 ^ 32 }
    ensures { result ≡ entry_passes_of Dense rows.now witness.now entries columns i }
{
    let counted = word_within(witness, 2 + i, 0, MOST_DISJUNCTS);
    let placed = word_within(witness, 2 + entries + i, 0, MOST_WORDS);
    let count = entry_count(witness, i);
    let place = entry_place(witness, entries, i);
    let disjuncts = disjuncts_pass(rows, columns, count, place);
    counted & ((count == 0) | (placed & disjuncts))
}

// The row at `at` varies: not all its coefficients are 0. It is left at the first that isn't.
fn row_varies(rows: &[i32], columns: usize, at: usize) -> bool
    requires columns_bound { columns ≤ 64 }
    requires at_bound { at ≤ 2 ^ 41 }
    ensures { result ≡ varies (row_of columns (drop at rows.now)) }
{
    let first = reading::coefficients_from(at);
    for i in 0..columns {
        if !word_small(rows, first + i, 0) {
            return true;
        }
    }
    false
}

// Each row of the disjunct at `at` does.
fn disjunct_varies(rows: &[i32], columns: usize, at: usize) -> bool
    requires columns_bound { columns ≤ 64 }
    requires at_bound { at ≤ 2 ^ 40 }
    ensures { result ≡ rows_vary (rows_of columns (row_count rows.now at) (drop (at + 1) rows.now)) }
{
    let count = number_at(rows, at, MOST_ROWS);
    let size = reading::row_words(columns);
    let mut all = true;
    for i in 0..count {
        let varying = row_varies(rows, columns, at + 1 + i * size);
        all = all & varying;
    }
    all
}

// Each row of so many disjuncts from `at` on does.
fn disjuncts_vary(rows: &[i32], columns: usize, count: usize, at: usize) -> bool
    requires columns_bound { columns ≤ 64 }
    requires count_le_most_disjuncts { count ≤ most_disjuncts }
    requires at_bound { at ≤ 2 ^ 32 }
    ensures { result ≡ edges_vary (disjuncts_of Dense columns count (drop at rows.now)) }
{
    let mut all = true;
    let mut place = at;
    for i in 0..count {
        let rows_vary = disjunct_varies(rows, columns, place);
        let size = disjunct_words(rows, columns, place, StoredForm::Dense);
        all = all & rows_vary;
        place = place + size;
    }
    all
}

// Test 15 of one entry: each of its rows varies.
pub fn entry_varies(rows: &[i32], witness: &[i32], entries: usize, columns: usize, i: usize) -> bool
    requires entries_bound { entries ≤ 2 ^ 32 }
    requires columns_bound { columns ≤ 64 }
    requires i_bound { i ≤ 2 ^ 32 }
    ensures { result ≡ edges_vary (disjuncts_of Dense columns (count_of witness.now i) (drop (place_of witness.now entries i) rows.now)) }
{
    let count = entry_count(witness, i);
    let place = entry_place(witness, entries, i);
    disjuncts_vary(rows, columns, count, place)
}
