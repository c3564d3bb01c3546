// The parts of a certificate's words, each into a buffer from `to` on: words as they are, the header, and a disjunct in the other form. The functions
// are public for the crates above.
#![tactic(auto)]

ghost use Rattle.std.specs.Prelude.{◌≡◌, [], ◌∷◌, ◌+◌, ◌≤◌, pos, length, take, drop};
ghost use Rattle.std.proofs.lemmas.List.Edits.{sets};
ghost use Rattle.words.specs.Limits.{most_words};
ghost use Rattle.certificates.specs.CertificateWords.{row_count};
ghost use Rattle.certificate_readers.specs.Disjuncts.{RowsInside};
ghost use Rattle.layout_writers.specs.OtherCode.{rows_other, disjunct_other};

use certificate_readers::row_count;
use row_writers::write_other;
use sparse_rows::rows_take;
use words::StoredForm;

// So many words as they are. By a loop: with `copy_from_slice` the libraries for C call memmove, which they don't ask of their callers.
pub fn copy_words(words: &[i32], at: usize, count: usize, buffer: &mut [i32], to: usize)
    requires count_in_bounds { at + count ≤ length words.now }
    requires count_in_bounds_2 { to + count ≤ length buffer.old }
    ensures { buffer.new ≡ sets buffer.old to (take count (drop at words.now)) }
{
    for i in 0..count {
        buffer[to + i] = words[at + i];
    }
}

// The mark, and how many row words and witness words there are.
pub fn write_header(mark: i32, rows: usize, words: usize, buffer: &mut [i32])
    requires rows_le_most_words { rows ≤ most_words }
    requires words_le_most_words { words ≤ most_words }
    requires in_bounds { 3 ≤ length buffer.old }
    ensures { buffer.new ≡ sets buffer.old 0 (mark ∷ pos rows ∷ pos words ∷ []) }
{
    buffer[0] = mark;
    buffer[1] = rows as i32;
    buffer[2] = words as i32;
}

// So many rows from `at` on, and how many words they are there.
pub fn write_rows(
    rows: &[i32],
    at: usize,
    columns: usize,
    count: usize,
    form: StoredForm,
    buffer: &mut [i32],
    to: usize,
) -> usize
    requires columns_bound { columns ≤ 64 }
    requires rows_inside { RowsInside form columns rows.now at count }
    requires count_in_bounds { to + length (rows_other form columns rows.now at count) ≤ length buffer.old }
    ensures value { result ≡ length (rows_other form columns rows.now at count) }
    ensures buffer_after { buffer.new ≡ sets buffer.old to (rows_other form columns rows.now at count) }
{
    let mut from = at;
    let mut size = 0;
    for i in 0..count {
        let written = write_other(rows, from, columns, form, buffer, to + size);
        let taken = rows_take(rows, from, columns, 1, form);
        size = size + written;
        from = from + taken;
    }
    size
}

// The disjunct at `at`: its row count, and its rows.
pub fn write_disjunct(
    rows: &[i32],
    at: usize,
    columns: usize,
    form: StoredForm,
    buffer: &mut [i32],
    to: usize,
) -> usize
    requires columns_bound { columns ≤ 64 }
    requires rows_inside { RowsInside form columns rows.now (at + 1) (row_count rows.now at) }
    requires at_in_bounds { to + length (disjunct_other form columns rows.now at) ≤ length buffer.old }
    ensures value { result ≡ length (disjunct_other form columns rows.now at) }
    ensures buffer_after { buffer.new ≡ sets buffer.old to (disjunct_other form columns rows.now at) }
{
    let count = row_count(rows, at);
    buffer[to] = count as i32;
    let written = write_rows(rows, at + 1, columns, count, form, buffer, to + 1);
    1 + written
}
