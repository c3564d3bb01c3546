// A row of one stored form, written in the words of the other one. The functions are public for the crates above.
#![tactic(auto)]

ghost use Rattle.std.specs.Prelude.{◌≡◌, ◌+◌, ◌≤◌, pos, length, take, drop, ◌≤ℤ◌};
ghost use Rattle.std.proofs.lemmas.List.Edits.{sets};
ghost use Rattle.rows.specs.Columns.{zeros};
ghost use Rattle.words.specs.Limits.{most_low};
ghost use Rattle.words.specs.Words.{word};
ghost use Rattle.words.specs.Ranges.{Between};
ghost use Rattle.words.specs.RowWords.{constant_words, constant_at, row_size, row_of};
ghost use Rattle.words.specs.RowForm.{RowForm};
ghost use Rattle.words.specs.RowCode.{constant_code, row_code};
ghost use Rattle.words.specs.SparseRows.{used_of, sparse_size, sparse_row_of};
ghost use Rattle.words.specs.SparseForm.{SparseRowForm};
ghost use Rattle.words.specs.UsedColumns.{used_coefficients};
ghost use Rattle.words.specs.SparseCode.{sparse_code};
ghost use Rattle.words.specs.StoredRows.{row_in, row_takes, RowFormIn};
ghost use Rattle.words.specs.CodedRows.{code_in};
ghost use Rattle.conversions.specs.Conversions.{other_form};
ghost use Rattle.row_writers.specs.Arrays.{both_arrays};

use words::StoredForm;

const ARRAYS_FROM: usize = 3;

// The count or the column that a word is.
fn number_of(x: i32) -> usize
    requires { pos 0 ≤ℤ x }
    ensures { pos result ≡ x }
{
    x as usize
}

// How many of the coefficients from `from` on aren't 0.
fn used_from(rows: &[i32], from: usize, columns: usize) -> usize
    requires { from + columns ≤ length rows.now }
    ensures value { result ≡ length (used_coefficients (take columns (drop from rows.now))) }
    ensures upper_bound { result ≤ columns }
{
    let mut used = 0;
    for &coefficient in &rows[from..from + columns] {
        if coefficient != 0 {
            used = used + 1;
        }
    }
    used
}

// The constant's two words.
fn write_constant(rows: &[i32], at: usize, buffer: &mut [i32], to: usize)
    requires constant_words_in_bounds { at + constant_words ≤ length rows.now }
    requires between { Between (pos 0) (pos most_low) (word rows.now (at + 1)) }
    requires constant_words_in_bounds_2 { to + constant_words ≤ length buffer.old }
    ensures { buffer.new ≡ sets buffer.old to (constant_code (constant_at rows.now at)) }
{
    buffer[to..to + 2].copy_from_slice(&rows[at..at + 2]);
}

// The columns of the coefficients that aren't 0, from `first` on, and behind these columns, of which there are `used`, the coefficients.
fn write_arrays(
    rows: &[i32],
    from: usize,
    columns: usize,
    used: usize,
    buffer: &mut [i32],
    first: usize,
)
    requires columns_in_bounds { from + columns ≤ length rows.now }
    requires columns_bound { columns ≤ 64 }
    requires used_value { used ≡ length (used_coefficients (take columns (drop from rows.now))) }
    requires used_in_bounds { first + (used + used) ≤ length buffer.old }
    ensures { buffer.new ≡ sets buffer.old first (both_arrays (take columns (drop from rows.now))) }
{
    let mut place = first;
    for (j, &x) in rows[from..from + columns].iter().enumerate() {
        if x != 0 {
            let value = place + used;
            buffer[place] = j as i32;
            buffer[value] = x;
            place = place + 1;
        }
    }
}

// The dense row at `at` as a sparse one, and how many words that takes.
fn write_sparse(rows: &[i32], at: usize, columns: usize, buffer: &mut [i32], to: usize) -> usize
    requires columns_in_bounds { at + row_size columns ≤ length rows.now }
    requires columns_bound { columns ≤ 64 }
    requires row_form { RowForm rows.now at columns }
    requires rows_in_bounds { to + length (sparse_code (row_of columns (drop at rows.now))) ≤ length buffer.old }
    ensures value { result ≡ length (sparse_code (row_of columns (drop at rows.now))) }
    ensures buffer_after { buffer.new ≡ sets buffer.old to (sparse_code (row_of columns (drop at rows.now))) }
{
    let from = reading::coefficients_from(at);
    let used = used_from(rows, from, columns);
    write_constant(rows, at, buffer, to);
    let counted = reading::coefficients_from(to);
    buffer[counted] = used as i32;
    write_arrays(rows, from, columns, used, buffer, to + ARRAYS_FROM);
    ARRAYS_FROM + (used + used)
}

fn write_zeros(buffer: &mut [i32], from: usize, columns: usize)
    requires { from + columns ≤ length buffer.old }
    ensures { buffer.new ≡ sets buffer.old from (zeros columns) }
{
    buffer[from..from + columns].fill(0);
}

// The coefficients of the sparse row at `at`, each in its column, and zeros.
fn write_coefficients(rows: &[i32], at: usize, columns: usize, buffer: &mut [i32], from: usize)
    requires rows_in_bounds { at + sparse_size (used_of columns (drop at rows.now)) ≤ length rows.now }
    requires sparse_row_form { SparseRowForm columns (drop at rows.now) }
    requires columns_in_bounds { from + columns ≤ length buffer.old }
    ensures { buffer.new ≡ sets buffer.old from (sparse_row_of columns (drop at rows.now)).coefficients }
{
    write_zeros(buffer, from, columns);
    let counted = reading::coefficients_from(at);
    let used = number_of(rows[counted]);
    let first = counted + 1;
    let values = first + used;
    for j in 0..used {
        let column = number_of(rows[first + j]);
        let x = rows[values + j];
        let place = from + column;
        buffer[place] = x;
    }
}

// The sparse row at `at` as a dense one, and how many words that takes.
fn write_dense(rows: &[i32], at: usize, columns: usize, buffer: &mut [i32], to: usize) -> usize
    requires rows_in_bounds { at + sparse_size (used_of columns (drop at rows.now)) ≤ length rows.now }
    requires columns_bound { columns ≤ 64 }
    requires sparse_row_form { SparseRowForm columns (drop at rows.now) }
    requires rows_in_bounds_2 { to + length (row_code (sparse_row_of columns (drop at rows.now))) ≤ length buffer.old }
    ensures value { result ≡ length (row_code (sparse_row_of columns (drop at rows.now))) }
    ensures buffer_after { buffer.new ≡ sets buffer.old to (row_code (sparse_row_of columns (drop at rows.now))) }
{
    write_constant(rows, at, buffer, to);
    write_coefficients(rows, at, columns, buffer, reading::coefficients_from(to));
    reading::row_words(columns)
}

// How many words the row at `at` takes in the other form.
pub fn other_size(rows: &[i32], at: usize, columns: usize, form: StoredForm) -> usize
    requires rows_in_bounds { at + row_takes form columns (drop at rows.now) ≤ length rows.now }
    requires columns_bound { columns ≤ 64 }
    requires row_form_in { RowFormIn form rows.now at columns }
    ensures value { result ≡ length (code_in (other_form form) (row_in form columns (drop at rows.now))) }
    ensures upper_bound { result ≤ 131 }
{
    match form {
        StoredForm::Dense => {
            let used = used_from(rows, reading::coefficients_from(at), columns);
            let arrays = used + used;
            ARRAYS_FROM + arrays
        }
        StoredForm::Sparse => reading::row_words(columns),
    }
}

// The row at `at` in the other form, into the buffer from `to` on, and how many words these are.
pub fn write_other(
    rows: &[i32],
    at: usize,
    columns: usize,
    form: StoredForm,
    buffer: &mut [i32],
    to: usize,
) -> usize
    requires rows_in_bounds { at + row_takes form columns (drop at rows.now) ≤ length rows.now }
    requires columns_bound { columns ≤ 64 }
    requires row_form_in { RowFormIn form rows.now at columns }
    requires rows_in_bounds_2 { to + length (code_in (other_form form) (row_in form columns (drop at rows.now))) ≤ length buffer.old }
    ensures value { result ≡ length (code_in (other_form form) (row_in form columns (drop at rows.now))) }
    ensures buffer_after { buffer.new ≡ sets buffer.old to (code_in (other_form form) (row_in form columns (drop at rows.now))) }
{
    match form {
        StoredForm::Dense => write_sparse(rows, at, columns, buffer, to),
        StoredForm::Sparse => write_dense(rows, at, columns, buffer, to),
    }
}
