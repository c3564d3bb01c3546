// Words read: as a natural number, as a test of a range, and rows of words as tests of their limits.
// Every look-up is total: past the end a word is 0. The functions are public for the crates above; what they promise holds for every input
// but for a place near the end of what a usize can count, and for rows with more columns or in greater number than any input has.
#![tactic(auto)]

ghost use Rattle.std.specs.Prelude.{◌≡◌, ◌+◌, ◌*◌, ◌^◌, ◌≤◌, ◌<◌, length};
ghost use Rattle.words.specs.Words.{word, within, below, small, number, all_small};
ghost use Rattle.words.specs.RowWords.{constant_words, is_constant, row_size, constant_passes, row_passes, rows_pass};
ghost use Rattle.reading.specs.Reading.{natural};

const CONSTANT_LIMIT: i64 = 4000000000;

const MOST_LOW: i32 = 999999;

const COEFFICIENT_LIMIT: usize = 1000;

const CONSTANT_WORDS: usize = 2;

const LARGEST_WORD: usize = 2147483647;

// A word that is not negative, as a number.
pub fn nat_of(x: i32) -> Option<usize>
    ensures { result ≡ natural x }
{
    if x < 0 {
        return None;
    }
    Some(x as usize)
}

// A word is one of -limit..=limit. Every word is for a limit past the largest one.
pub fn is_small(x: i32, limit: usize) -> bool
    ensures { result ≡ small limit x }
{
    if LARGEST_WORD < limit {
        return true;
    }
    let most = limit as i32;
    (-most <= x) & (x <= most)
}

// The word at i where it is not negative.
pub fn natural_at(words: &[i32], i: usize) -> Option<usize>
    ensures { result ≡ natural (word words.now i) }
{
    if words.len() <= i {
        return Some(0);
    }
    nat_of(words[i])
}

// The word at i is one of low..=high.
pub fn word_within(words: &[i32], i: usize, low: usize, high: usize) -> bool
    ensures { result ≡ within low high (word words.now i) }
{
    natural_at(words, i).is_some_and(|m| (low <= m) & (m <= high))
}

// The word at i is one of 0..high.
pub fn word_below(words: &[i32], i: usize, high: usize) -> bool
    ensures { result ≡ below high (word words.now i) }
{
    natural_at(words, i).is_some_and(|m| m < high)
}

// The word at i is one of -limit..=limit.
pub fn word_small(words: &[i32], i: usize, limit: usize) -> bool
    ensures { result ≡ small limit (word words.now i) }
{
    if words.len() <= i {
        return true;
    }
    is_small(words[i], limit)
}

// The number that the word is, where it is one of 0..=most; else 0.
pub fn number_of(x: i32, most: usize) -> usize
    ensures value { result ≡ number most x }
    ensures upper_bound { result ≤ most }
{
    if x < 0 {
        return 0;
    }
    let m = x as usize;
    if most < m {
        return 0;
    }
    m
}

// The number that the word at i is, where it is one of 0..=most; else 0.
pub fn number_at(words: &[i32], i: usize, most: usize) -> usize
    ensures value { result ≡ number most (word words.now i) }
    ensures upper_bound { result ≤ most }
{
    if words.len() <= i {
        return 0;
    }
    number_of(words[i], most)
}

// So many words from `at` on, which are all there, are all one of -limit..=limit.
fn inside_small(words: &[i32], limit: usize, at: usize, count: usize) -> bool
    requires { at + count ≤ length words.now }
    ensures { result ≡ all_small words.now limit at count }
{
    let mut all = true;
    for &x in &words[at..at + count] {
        all = all & is_small(x, limit);
    }
    all
}

// So many words from `at` on are all one of -limit..=limit. Those past the end are 0 and needn't be looked at.
pub fn all_small(words: &[i32], limit: usize, at: usize, count: usize) -> bool
    requires { at + count < 2 ^ 64 }
    ensures { result ≡ all_small words.now limit at count }
{
    if words.len() <= at {
        return true;
    }
    let left = words.len() - at;
    if left < count {
        return inside_small(words, limit, at, left);
    }
    inside_small(words, limit, at, count)
}

// How many words a row of so many columns takes.
pub fn row_words(columns: usize) -> usize
    requires { row_size columns < 2 ^ 64 }
    ensures { result ≡ row_size columns }
{
    CONSTANT_WORDS + columns
}

// Where the coefficients of the row at `at` begin.
pub fn coefficients_from(at: usize) -> usize
    requires { at + constant_words < 2 ^ 64 }
    ensures { result ≡ at + constant_words }
{
    at + CONSTANT_WORDS
}

// Two words spell a constant that is within its limit.
pub fn is_constant(high: i32, low: i32) -> bool
    ensures { result ≡ is_constant high low }
{
    let constant = numbers::constant_of(high, low);
    let spelled = (0 <= low) & (low <= MOST_LOW);
    let inside = (-CONSTANT_LIMIT <= constant) & (constant <= CONSTANT_LIMIT);
    spelled & inside
}

// The word at i; past the end it is 0.
fn word_at(words: &[i32], i: usize) -> i32
    ensures { result ≡ word words.now i }
{
    words.get(i).copied().unwrap_or(0)
}

// The constant of the row at `at` is within its limit.
pub fn constant_passes(words: &[i32], at: usize) -> bool
    requires { at + constant_words < 2 ^ 64 }
    ensures { result ≡ constant_passes words.now at }
{
    is_constant(word_at(words, at), word_at(words, at + 1))
}

// The row at `at` has its constant and its coefficients within their limits.
pub fn row_passes(words: &[i32], at: usize, columns: usize) -> bool
    requires { at + columns < 2 ^ 63 }
    ensures { result ≡ row_passes words.now at columns }
{
    let constant = constant_passes(words, at);
    let coefficients = all_small(words, COEFFICIENT_LIMIT, coefficients_from(at), columns);
    constant & coefficients
}

// The same of a row that is all there.
fn inside_row(words: &[i32], at: usize, columns: usize) -> bool
    requires { at + row_size columns ≤ length words.now }
    ensures { result ≡ row_passes words.now at columns }
{
    let constant = is_constant(words[at], words[at + 1]);
    let coefficients = inside_small(words, COEFFICIENT_LIMIT, coefficients_from(at), columns);
    constant & coefficients
}

// So many rows that are all there, one after the other.
fn inside_rows(words: &[i32], at: usize, columns: usize, count: usize) -> bool
    requires columns_bound { columns ≤ 64 }
    requires columns_in_bounds { at + count * row_size columns ≤ length words.now }
    ensures { result ≡ rows_pass words.now at columns count }
{
    let size = row_words(columns);
    let mut from = at;
    let mut all = true;
    for i in 0..count {
        let one = inside_row(words, from, columns);
        all = all & one;
        from = from + size;
    }
    all
}

// So many rows, one after the other, wherever the words end.
fn any_rows(words: &[i32], at: usize, columns: usize, count: usize) -> bool
    requires at_bound { at ≤ 2 ^ 62 }
    requires columns_bound { columns ≤ 64 }
    requires count_bound { count ≤ 32 }
    ensures { result ≡ rows_pass words.now at columns count }
{
    let size = row_words(columns);
    let mut all = true;
    for i in 0..count {
        let one = row_passes(words, at + i * size, columns);
        all = all & one;
    }
    all
}

// So many rows, one after the other. Whether they are all there is asked once, as they mostly are.
pub fn rows_pass(words: &[i32], at: usize, columns: usize, count: usize) -> bool
    requires at_bound { at ≤ 2 ^ 62 }
    requires columns_bound { columns ≤ 64 }
    requires count_bound { count ≤ 32 }
    ensures { result ≡ rows_pass words.now at columns count }
{
    let size = row_words(columns);
    if at + count * size <= words.len() {
        return inside_rows(words, at, columns, count);
    }
    any_rows(words, at, columns, count)
}
