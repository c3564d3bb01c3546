// Sparse rows of words: how many words they take, and their tests. Rows stand one after the other, and where the next one begins is known once
// the count of this one is read. The functions are public for the crates above.
#![tactic(auto)]

ghost use Rattle.std.specs.Prelude.{◌≡◌, ◌+◌, ◌*◌, ◌^◌, ◌≤◌, ◌<◌, pos, length, drop, ◌≤ℤ◌};
ghost use Rattle.std.specs.Bool.{then_some};
ghost use Rattle.std.specs.Int.Signed.{lt_z};
ghost use Rattle.words.specs.Words.{word, below};
ghost use Rattle.words.specs.RowWords.{constant_words};
ghost use Rattle.words.specs.SparseRows.{used_of, sparse_size, sparse_words, sparse_passes, sparse_strict};
ghost use Rattle.words.specs.SparseForm.{SparseRowForm, SparseRowsForm};
ghost use Rattle.words.specs.StoredRows.{rows_take};
ghost use Rattle.sparse_rows.specs.SparseLoops.{passes_to, strict_to};
ghost use Rattle.sparse_rows.specs.Walks.{rows_walk};

use reading::{number_at, word_within};
use words::StoredForm;

const COEFFICIENT_LIMIT: usize = 1000;

// ---- any words

// The count of the row at `at`.
pub fn used_count(words: &[i32], at: usize, columns: usize) -> usize
    requires { at + constant_words < 2 ^ 64 }
    ensures value { result ≡ used_of columns (drop at words.now) }
    ensures upper_bound { result ≤ columns }
{
    number_at(words, reading::coefficients_from(at), columns)
}

// How many words `count` rows take from `at` on.
pub fn sparse_words(words: &[i32], at: usize, columns: usize, count: usize) -> usize
    requires at_bound { at ≤ 2 ^ 62 }
    requires columns_bound { columns ≤ 64 }
    requires count_bound { count ≤ 32 }
    ensures value { result ≡ sparse_words columns count (drop at words.now) }
    ensures upper_bound { result ≤ 4192 }
{
    let mut size = 0;
    for i in 0..count {
        let used = used_count(words, at + size, columns);
        size = size + (3 + (used + used));
    }
    size
}

// How many words `count` rows of either form take from `at` on.
pub fn rows_take(words: &[i32], at: usize, columns: usize, count: usize, form: StoredForm) -> usize
    requires at_bound { at ≤ 2 ^ 62 }
    requires columns_bound { columns ≤ 64 }
    requires count_bound { count ≤ 32 }
    ensures value { result ≡ rows_take form columns count (drop at words.now) }
    ensures upper_bound { result ≤ 4192 }
{
    match form {
        StoredForm::Dense => count * reading::row_words(columns),
        StoredForm::Sparse => sparse_words(words, at, columns, count),
    }
}

// ---- rows that have passed test 5: their counts and columns are read with no test

// The word at i, which is there and isn't negative.
pub fn natural_inside(words: &[i32], i: usize) -> usize
    requires { (i < length words.now) × (pos 0 ≤ℤ word words.now i) }
    ensures { pos result ≡ word words.now i }
{
    words[i] as usize
}

// The count of the row of so many columns at `at`.
pub fn used_inside(words: &[i32], at: usize, columns: usize) -> usize
    requires words_in_bounds { at + sparse_size (used_of columns (drop at words.now)) ≤ length words.now }
    requires sparse_row_form { SparseRowForm columns (drop at words.now) }
    ensures { result ≡ used_of columns (drop at words.now) }
{
    natural_inside(words, reading::coefficients_from(at))
}

// How many of `count` rows of so many columns from `at` on have as many coefficients as the first, `many`, up to the first that hasn't. Where each stands
// is known before its count is read, so that the processor needn't wait for one count to read the next.
fn alike(words: &[i32], at: usize, columns: usize, count: usize, many: usize) -> usize
    requires words_in_bounds { at + sparse_words columns count (drop at words.now) ≤ length words.now }
    requires sparse_rows_form { SparseRowsForm columns count (drop at words.now) }
    requires le_count { (1 ≤ count) × (many ≡ used_of columns (drop at words.now)) }
    ensures few { (1 ≤ result) × (result ≤ count) }
    ensures words { sparse_words columns result (drop at words.now) ≡ result * sparse_size many }
{
    let size = 3 + (many + many);
    let mut from = at + size;
    for i in 1..count {
        let here = used_inside(words, from, columns);
        if here != many {
            return i;
        }
        from = from + size;
    }
    count
}

// How many words `count` rows of so many columns take from `at` on. Rows that are alike are gone over together.
pub fn words_inside(words: &[i32], at: usize, columns: usize, count: usize) -> usize
    requires words_in_bounds { at + sparse_words columns count (drop at words.now) ≤ length words.now }
    requires sparse_rows_form { SparseRowsForm columns count (drop at words.now) }
    ensures { result ≡ sparse_words columns count (drop at words.now) }
{
    let mut from = at;
    let mut left = count;
    while 0 < left {
        let many = used_inside(words, from, columns);
        let like = alike(words, from, columns, left, many);
        left = left - like;
        from = from + like * (3 + (many + many));
    }
    from - at
}

// ---- tests 5 and 25, in one walk over the words

// Rows that have passed test 5: whether they pass test 25, whether each has a coefficient, and where they end.
#[derive(Drop)]
pub struct Walked {
    pub strict: bool,
    pub filled: bool,
    pub end: usize,
}

// The word is one of 0..columns.
fn is_column(x: i32, columns: usize) -> bool
    ensures { result ≡ below columns x }
{
    let read = reading::nat_of(x);
    match read {
        Some(m) => m < columns,
        None => false,
    }
}

fn rises(last: i32, x: i32) -> bool
    ensures { result ≡ lt_z last x }
{
    last < x
}

// Both arrays of a row, which are all there: `used` columns from `first` on, and as many coefficients behind them. Whether they pass test 25, where
// they have passed test 5.
fn arrays_tested(words: &[i32], first: usize, used: usize, columns: usize) -> Option<bool>
    requires { first + used + used ≤ length words.now }
    ensures { result ≡ then_some (passes_to columns first used words.now used) (strict_to columns first used words.now used) }
{
    let values = first + used;
    let mut passes = true;
    let mut strict = true;
    let mut last = 0 - 1;
    for j in 0..used {
        let x = words[first + j];
        let y = words[values + j];
        let column = is_column(x, columns);
        let small = reading::is_small(y, COEFFICIENT_LIMIT);
        let zero = reading::is_small(y, 0);
        let later = rises(last, x);
        passes = passes & (column & small);
        strict = strict & (later & !zero);
        last = x;
    }
    passes.then_some(strict)
}

// The row at `at`, which is all there and has the count `used`: whether it passes test 25, where it has passed test 5.
fn row_tested(words: &[i32], at: usize, columns: usize, used: usize) -> Option<bool>
    requires used_value { used ≡ used_of columns (drop at words.now) }
    requires used_in_bounds { at + sparse_size used ≤ length words.now }
    ensures { result ≡ then_some (sparse_passes columns (drop at words.now)) (sparse_strict columns (drop at words.now)) }
{
    let counted = reading::coefficients_from(at);
    let constant = reading::constant_passes(words, at);
    let count = word_within(words, counted, 0, columns);
    let strict = arrays_tested(words, counted + 1, used, columns)?;
    (constant & count).then_some(strict)
}

// `count` rows from `at` on; none where one of them fails test 5 or isn't all there.
pub fn rows_walked(words: &[i32], at: usize, columns: usize, count: usize) -> Option<Walked>
    requires at_in_bounds { (at ≤ length words.now) × (at ≤ 2 ^ 41) }
    requires columns_bound { columns ≤ 64 }
    requires count_bound { count ≤ 32 }
    ensures { result ≡ rows_walk words.now at columns count }
{
    let mut strict = true;
    let mut filled = true;
    let mut from = at;
    for i in 0..count {
        let used = used_count(words, from, columns);
        let end = from + (3 + (used + used));
        if words.len() < end {
            return None;
        }
        let rises = row_tested(words, from, columns, used)?;
        strict = strict & rises;
        filled = filled & (0 < used);
        from = end;
    }
    Some(Walked {
        strict,
        filled,
        end: from,
    })
}
