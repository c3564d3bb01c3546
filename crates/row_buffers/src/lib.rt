// Rows in flat buffers: a row is its constant and then its coefficients, rows stand one after the other.
// Weighted rows are added into a buffer row by row: most weights are 0, and such a row costs one test.
// The functions are public for the crates above.
#![tactic(auto)]

ghost use Rattle.std.specs.Prelude.{◌≡◌, ◌+◌, ◌*◌, ◌≤◌, ◌<◌, nat_abs, pos, length, take, drop};
ghost use Rattle.rows.specs.Rows.{constant_row, add, scale, combine};
ghost use Rattle.rows.specs.Columns.{column};
ghost use Rattle.words.specs.Limits.{most_rows};
ghost use Rattle.words.specs.Words.{word};
ghost use Rattle.words.specs.RowWords.{constant_words, constant_at, row_size, row_of};
ghost use Rattle.words.specs.SparseRows.{used_of, sparse_size, sparse_row_of};
ghost use Rattle.words.specs.SparseForm.{SparseRowForm};
ghost use Rattle.numbers.specs.Small.{Small};
ghost use Rattle.row_buffers.specs.HeldRows.{stride, held_row, held_rows};
ghost use Rattle.row_buffers.specs.Spread.{written};
ghost use Rattle.row_buffers.specs.Naturals.{Natural};
ghost use Rattle.row_buffers.specs.EntryLimits.{weight_limit, entry_limit, sum_limit, disjunct_limit, Capacity, SmallRow, SmallRows};
ghost use Rattle.row_buffers.specs.PlacedRows.{SparseHere, PlacedHere, placed_rows};

// Adds row j, times the weight, to the target's row.
pub fn add_row(rows: &[i64], columns: usize, j: usize, weight: i64, target: &mut [i64])
    requires capacity { Capacity columns (j + 1) (length rows.now) }
    requires small_row { SmallRow entry_limit (held_row columns (drop (j * stride columns) rows.now)) }
    requires weight_bound { nat_abs weight ≤ weight_limit }
    requires columns_in_bounds { (columns < length target.old) × SmallRow sum_limit (held_row columns target.old) }
    ensures { target.new ≡ written columns (add (held_row columns target.old) (scale weight (held_row columns (drop (j * stride columns) rows.now)))) target.old }
{
    if weight == 0 {
        return;
    }
    let size = 1 + columns;
    let from = j * size;
    let row = &rows[from..from + size];
    for (i, &x) in row.iter().enumerate() {
        target[i] = numbers::add_mul(target[i], weight, x);
    }
}

// A word that isn't negative, widened. So the compiler knows that the number isn't, which makes products of 64 bits cheaper.
fn multiplier(words: &[i32], i: usize) -> i64
    requires i_in_bounds { i < length words.now }
    requires i_value { word words.now i ≡ pos (nat_abs (word words.now i)) }
    ensures { result ≡ word words.now i }
{
    let x = words[i];
    if x < 0 {
        return 0;
    }
    x as i64
}

// Adds column c, times the word at `at`, to the target's row: one entry.
pub fn add_column(words: &[i32], at: usize, c: usize, columns: usize, target: &mut [i64])
    requires at_in_bounds { (at < length words.now) × (c < columns) }
    requires columns_in_bounds { (columns < length target.old) × SmallRow sum_limit (held_row columns target.old) }
    ensures { target.new ≡ written columns (add (held_row columns target.old) (scale (word words.now at) (column c))) target.old }
{
    let weight = numbers::wide(words, at);
    target[1 + c] = numbers::add_mul(target[1 + c], weight, 1);
}

// Zeros.
fn clear_row(columns: usize, target: &mut [i64])
    requires { columns < length target.old }
    ensures { target.new ≡ written columns (constant_row (pos 0)) target.old }
{
    target[..1 + columns].fill(0);
}

// The constant at `from`, and zeros.
pub fn start_row(words: &[i32], from: usize, columns: usize, target: &mut [i64])
    requires { (from + constant_words ≤ length words.now) × (columns < length target.old) }
    ensures { target.new ≡ written columns (constant_row (constant_at words.now from)) target.old }
{
    clear_row(columns, target);
    target[0] = numbers::constant_at(words, from);
}

// The target's row of m columns, filled up with zeros.
fn fill_up(m: usize, columns: usize, target: &mut [i64])
    requires { (m ≤ columns) × (columns < length target.old) }
    ensures { target.new ≡ written columns (held_row m target.old) target.old }
{
    target[1 + m..1 + columns].fill(0);
}

// The row of m columns at `place`, filled up with zeros.
pub fn copy_row(words: &[i32], place: usize, m: usize, columns: usize, target: &mut [i64])
    requires m_in_bounds { place + row_size m ≤ length words.now }
    requires m_le_columns { (m ≤ columns) × (columns < length target.old) }
    ensures { target.new ≡ written columns (row_of m (drop place words.now)) target.old }
{
    target[0] = numbers::constant_at(words, place);
    let coefficients = reading::coefficients_from(place);
    let row = &words[coefficients..coefficients + m];
    for (i, &x) in row.iter().enumerate() {
        target[1 + i] = x as i64;
    }
    fill_up(m, columns, target);
}

// The sparse row of m columns at `place`, filled up with zeros: its constant, and each coefficient in its column. Returns how many words it takes.
pub fn spread_row(
    words: &[i32],
    place: usize,
    m: usize,
    columns: usize,
    target: &mut [i64],
) -> usize
    requires words_in_bounds { place + sparse_size (used_of m (drop place words.now)) ≤ length words.now }
    requires sparse_row_form { SparseRowForm m (drop place words.now) }
    requires m_le_columns { (m ≤ columns) × (columns < length target.old) }
    ensures target_after { target.new ≡ written columns (sparse_row_of m (drop place words.now)) target.old }
    ensures value { result ≡ sparse_size (used_of m (drop place words.now)) }
{
    start_row(words, place, columns, target);
    let used = sparse_rows::used_inside(words, place, m);
    let first = place + 3;
    let values = first + used;
    for j in 0..used {
        let c = sparse_rows::natural_inside(words, first + j);
        target[1 + c] = numbers::wide(words, values + j);
    }
    3 + (used + used)
}

// The first of the rows, times the weight. For weight 0 these are zeros, and no product is made.
fn first_row(rows: &[i64], columns: usize, weight: i64, target: &mut [i64])
    requires columns_in_bounds { columns < length rows.now }
    requires small_row { SmallRow entry_limit (held_row columns rows.now) }
    requires weight_bound { nat_abs weight ≤ weight_limit }
    requires columns_in_bounds_2 { columns < length target.old }
    ensures { target.new ≡ written columns (scale weight (held_row columns rows.now)) target.old }
{
    let nothing = weight == 0;
    if nothing {
        clear_row(columns, target);
        return;
    }
    let row = &rows[..1 + columns];
    for (i, &x) in row.iter().enumerate() {
        target[i] = numbers::add_mul(0, weight, x);
    }
}

// The weighted sum of n rows; the weights are the words from `from` on, and none is negative. The first row is stored, and the others are added
// to it.
pub fn sum_rows(
    rows: &[i64],
    columns: usize,
    n: usize,
    words: &[i32],
    from: usize,
    target: &mut [i64],
)
    requires capacity { Capacity columns n (length rows.now) }
    requires small_rows { SmallRows entry_limit (held_rows columns n rows.now) }
    requires n_in_bounds { (from + n ≤ length words.now) × Small weight_limit (take n (drop from words.now)) }
    requires natural { Natural (take n (drop from words.now)) }
    requires columns_in_bounds { columns < length target.old }
    ensures { target.new ≡ written columns (combine (take n (drop from words.now)) (held_rows columns n rows.now)) target.old }
{
    if n == 0 {
        clear_row(columns, target);
        return;
    }
    first_row(rows, columns, multiplier(words, from), target);
    for j in 1..n {
        add_row(rows, columns, j, multiplier(words, from + j), target);
    }
}

// Adds the sparse row of m columns at `place`, times the weight, to the target's row: its constant, and each coefficient in its column. For weight 0
// nothing of it is read.
fn add_sparse(
    words: &[i32],
    place: usize,
    m: usize,
    columns: usize,
    weight: i64,
    target: &mut [i64],
)
    requires sparse_here { SparseHere m words.now place }
    requires weight_bound { nat_abs weight ≤ weight_limit }
    requires m_le_columns { (m ≤ columns) × (columns < length target.old) }
    requires small_row { SmallRow sum_limit (held_row columns target.old) }
    ensures { target.new ≡ written columns (add (held_row columns target.old) (scale weight (sparse_row_of m (drop place words.now)))) target.old }
{
    let skipped = weight == 0;
    if skipped {
        return;
    }
    let constant = numbers::constant_at(words, place);
    target[0] = numbers::add_mul(target[0], weight, constant);
    let used = sparse_rows::used_inside(words, place, m);
    let arrays = place + 3;
    let values = arrays + used;
    for j in 0..used {
        let c = sparse_rows::natural_inside(words, arrays + j);
        let x = numbers::wide(words, values + j);
        let entry = 1 + c;
        target[entry] = numbers::add_mul(target[entry], weight, x);
    }
}

// The weighted sum of n sparse rows of m columns where they stand, at the places that a table has; the weights are as in `sum_rows`.
pub fn sum_sparse(
    stored: &[i32],
    places: &[usize],
    n: usize,
    m: usize,
    columns: usize,
    words: &[i32],
    from: usize,
    target: &mut [i64],
)
    requires placed_here { PlacedHere m stored.now n places.now }
    requires n_in_bounds { (from + n ≤ length words.now) × Small weight_limit (take n (drop from words.now)) }
    requires natural { Natural (take n (drop from words.now)) }
    requires m_le_columns { (m ≤ columns) × (columns < length target.old) }
    ensures { target.new ≡ written columns (combine (take n (drop from words.now)) (placed_rows m stored.now n places.now)) target.old }
{
    clear_row(columns, target);
    for j in 0..n {
        let place = places[j];
        let weight = multiplier(words, from + j);
        add_sparse(stored, place, m, columns, weight, target);
    }
}

// Adds the weighted sum of n rows, no more than a disjunct has, to the target's row, which holds no more than such a sum.
pub fn add_rows(
    rows: &[i64],
    columns: usize,
    n: usize,
    words: &[i32],
    from: usize,
    target: &mut [i64],
)
    requires capacity { Capacity columns n (length rows.now) × (n ≤ most_rows) }
    requires small_rows { SmallRows entry_limit (held_rows columns n rows.now) }
    requires n_in_bounds { (from + n ≤ length words.now) × Small weight_limit (take n (drop from words.now)) }
    requires natural { Natural (take n (drop from words.now)) }
    requires columns_in_bounds { (columns < length target.old) × SmallRow disjunct_limit (held_row columns target.old) }
    ensures { target.new ≡ written columns (add (held_row columns target.old) (combine (take n (drop from words.now)) (held_rows columns n rows.now))) target.old }
{
    for j in 0..n {
        let weight = multiplier(words, from + j);
        add_row(rows, columns, j, weight, target);
    }
}
