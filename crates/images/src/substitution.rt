// A row of words with an image put in. Where the columns stay as they are, the row is copied. Any other image is blocks of rows, one behind the
// other: columns and expressions; each block is added with its coefficients.
ghost use Rattle.std.specs.Prelude.{◌≡◌, ◌++◌, ◌+◌, ◌-◌, ◌≤◌, ◌<◌, nat_abs, length, set, drop};
ghost use Rattle.rows.specs.Rows.{add, scale, substitute, substitute_all};
ghost use Rattle.rows.specs.Columns.{columns as block};
ghost use Rattle.words.specs.Limits.{constant_limit};
ghost use Rattle.words.specs.Words.{word};
ghost use Rattle.words.specs.RowWords.{constant_words, constant_at, row_size, row_of, rows_of};
ghost use Rattle.words.specs.RowForm.{RowForm, Expression, Expressions};
ghost use Rattle.certificates.specs.Entailments.{entry_image};
ghost use Rattle.row_buffers.specs.HeldRows.{held_row};
ghost use Rattle.row_buffers.specs.Spread.{written};
ghost use Rattle.row_buffers.specs.EntryLimits.{most_buffer_columns, weight_limit, sum_limit, target_limit, SmallRow};
ghost use Rattle.entailments.specs.Meaning.{procedure_columns, image_rows, actuals_at};
ghost use Rattle.entailments.specs.Forms.{ShapeForm, ImageHere};
ghost use Rattle.images.specs.Sums.{middle_limit, Weights, Ready, Summed, RowHere, Begun, replaced};

use entailments::{Image, Shape};

// Adds the expression at `place`, over the columns now, times the word at `at` of the rows: the constant and k coefficients.
pub(crate) fn add_expression(
    words: &[i32],
    place: usize,
    k: usize,
    columns: usize,
    rows: &[i32],
    at: usize,
    target: &mut [i64],
)
    requires expression { Expression words.now place k }
    requires k_bound { k + k ≤ columns }
    requires at_in_bounds { (at < length rows.now) × (nat_abs (word rows.now at) ≤ weight_limit) }
    requires columns_in_bounds { (columns < length target.old) × SmallRow sum_limit (held_row columns target.old) }
    ensures { target.new ≡ written columns (add (held_row columns target.old) (scale (word rows.now at) (substitute (block k k) (row_of k (drop place words.now))))) target.old }
{
    let weight = numbers::wide(rows, at);
    if weight == 0 {
        return;
    }
    target[0] = numbers::add_mul(target[0], weight, numbers::constant_at(words, place));
    let coefficients = reading::coefficients_from(place);
    let row = &words[coefficients..coefficients + k];
    for (i, &x) in row.iter().enumerate() {
        let p = 1 + k + i;
        target[p] = numbers::add_mul(target[p], weight, x as i64);
    }
}

// Adds the `count` expressions from `place` on, times the words from `at` on of the rows.
fn add_expressions(
    words: &[i32],
    place: usize,
    k: usize,
    count: usize,
    columns: usize,
    rows: &[i32],
    at: usize,
    target: &mut [i64],
)
    requires expressions { Expressions words.now place k count }
    requires k_bound { (k + k ≤ columns) × (count ≤ most_buffer_columns) }
    requires weights { Weights rows.now at count }
    requires ready { Ready columns target_limit target.old }
    ensures { Summed rows.now columns at count (substitute_all (block k k) (rows_of k count (drop place words.now))) target.old target.new }
{
    let size = reading::row_words(k);
    for i in 0..count {
        add_expression(words, place + i * size, k, columns, rows, at + i, target);
    }
}

// Adds the `count` columns from column c on, times the words from `at` on of the rows.
fn add_columns(rows: &[i32], at: usize, count: usize, c: usize, columns: usize, target: &mut [i64])
    requires count_bound { c + count ≤ columns }
    requires weights { Weights rows.now at count }
    requires ready { Ready columns target_limit target.old }
    ensures { Summed rows.now columns at count (block c count) target.old target.new }
{
    for i in 0..count {
        row_buffers::add_column(rows, at + i, c + i, columns, target);
    }
}

// The constant at `from` of the rows, and zeros; where the coefficients stand.
fn begin(rows: &[i32], from: usize, columns: usize, target: &mut [i64]) -> usize
    requires constant_words_in_bounds { (from + constant_words ≤ length rows.now) × (nat_abs (constant_at rows.now from) ≤ constant_limit) }
    requires columns_le_most_buffer_columns { (columns ≤ most_buffer_columns) × (columns < length target.old) }
    ensures { Begun rows.now from columns result target.old target.new }
{
    row_buffers::start_row(rows, from, columns, target);
    reading::coefficients_from(from)
}

// All columns of the procedure are free, and the same at entry and now.
fn put_start(s: Shape, columns: usize, rows: &[i32], from: usize, target: &mut [i64])
    requires shape_form { ShapeForm s }
    requires s_bound { procedure_columns s ≤ columns }
    requires row_here { RowHere rows.now from (procedure_columns s + procedure_columns s) columns target.old }
    ensures { target.new ≡ replaced rows.now from columns (block 0 (procedure_columns s) ++ block 0 (procedure_columns s)) target.old }
{
    let own = s.globals + (s.parameters + s.others);
    let at = begin(rows, from, columns, target);
    add_columns(rows, at, own, 0, columns, target);
    add_columns(rows, at + own, own, 0, columns, target);
}

// Adds the globals now, the actuals at `place` and the first `fresh` columns behind the path's, times the words from `at` on of the rows.
fn add_entered(
    words: &[i32],
    place: usize,
    s: Shape,
    fresh: usize,
    columns: usize,
    rows: &[i32],
    at: usize,
    target: &mut [i64],
)
    requires shape_form { ShapeForm s }
    requires expressions { Expressions words.now place s.k s.parameters }
    requires globals_le_k { (s.globals ≤ s.k) × (s.k + s.k + fresh ≤ columns) }
    requires weights { Weights rows.now at (s.globals + (s.parameters + fresh)) }
    requires ready { Ready columns middle_limit target.old }
    ensures { Summed rows.now columns at (s.globals + (s.parameters + fresh)) (block s.k s.globals ++ (actuals_at words.now s place ++ block (s.k + s.k) fresh)) target.old target.new }
{
    add_columns(rows, at, s.globals, s.k, columns, target);
    let actuals = at + s.globals;
    add_expressions(
        words,
        place,
        s.k,
        s.parameters,
        columns,
        rows,
        actuals,
        target,
    );
    let behind = actuals + s.parameters;
    add_columns(rows, behind, fresh, s.k + s.k, columns, target);
}

// The globals now, the actuals at `place` and a fresh column for each other local, the same at entry and now.
fn put_entry(
    words: &[i32],
    place: usize,
    s: Shape,
    columns: usize,
    rows: &[i32],
    from: usize,
    target: &mut [i64],
)
    requires shape_form { ShapeForm s }
    requires expressions { Expressions words.now place s.k s.parameters }
    requires globals_le_k { (s.globals ≤ s.k) × (s.k + s.k + s.others ≤ columns) }
    requires row_here { RowHere rows.now from (procedure_columns s + procedure_columns s) columns target.old }
    ensures { target.new ≡ replaced rows.now from columns (entry_image (block s.k s.globals) (actuals_at words.now s place) (block (s.k + s.k) s.others)) target.old }
{
    let callee = s.globals + (s.parameters + s.others);
    let at = begin(rows, from, columns, target);
    add_entered(words, place, s, s.others, columns, rows, at, target);
    add_entered(
        words,
        place,
        s,
        s.others,
        columns,
        rows,
        at + callee,
        target,
    );
}

// The globals now, the actuals at `place`, the globals that the call returns with.
fn put_called(
    words: &[i32],
    place: usize,
    s: Shape,
    columns: usize,
    rows: &[i32],
    from: usize,
    target: &mut [i64],
)
    requires shape_form { ShapeForm s }
    requires expressions { Expressions words.now place s.k s.parameters }
    requires globals_le_k { (s.globals ≤ s.k) × (s.k + s.k + s.globals ≤ columns) }
    requires row_here { RowHere rows.now from (s.globals + s.parameters + s.globals) columns target.old }
    ensures { target.new ≡ replaced rows.now from columns (block s.k s.globals ++ (actuals_at words.now s place ++ block (s.k + s.k) s.globals)) target.old }
{
    let at = begin(rows, from, columns, target);
    add_entered(words, place, s, s.globals, columns, rows, at, target);
}

// The columns at entry; the globals now are those that the call returns with, whose columns stand behind the path's; the locals now.
fn put_return(s: Shape, columns: usize, rows: &[i32], from: usize, target: &mut [i64])
    requires shape_form { ShapeForm s }
    requires globals_le_k { (s.globals ≤ s.k) × (s.k + s.k + s.globals ≤ columns) }
    requires row_here { RowHere rows.now from (s.k + s.k) columns target.old }
    ensures { target.new ≡ replaced rows.now from columns (block 0 s.k ++ (block (s.k + s.k) s.globals ++ block (s.k + s.globals) (s.k - s.globals))) target.old }
{
    let at = begin(rows, from, columns, target);
    add_columns(rows, at, s.k, 0, columns, target);
    add_columns(rows, at + s.k, s.globals, s.k + s.k, columns, target);
    let locals = s.k + s.globals;
    add_columns(rows, at + locals, s.k - s.globals, locals, columns, target);
}

// Globals and parameters at entry, globals now.
fn put_exit(s: Shape, columns: usize, rows: &[i32], from: usize, target: &mut [i64])
    requires shape_form { ShapeForm s }
    requires parameters_bound { (s.globals + s.parameters ≤ s.k) × (s.k + s.k ≤ columns) }
    requires row_here { RowHere rows.now from (s.globals + s.parameters + s.globals) columns target.old }
    ensures { target.new ≡ replaced rows.now from columns (block 0 (s.globals + s.parameters) ++ block s.k s.globals) target.old }
{
    let entered = s.globals + s.parameters;
    let at = begin(rows, from, columns, target);
    add_columns(rows, at, entered, 0, columns, target);
    add_columns(rows, at + entered, s.globals, s.k, columns, target);
}

// The row as it is, with the expression at `place` put in for column i of those now.
fn put_assigned(
    words: &[i32],
    place: usize,
    i: usize,
    k: usize,
    rows: &[i32],
    from: usize,
    target: &mut [i64],
)
    requires expression { Expression words.now place k }
    requires i_lt_k { i < k }
    requires k_in_bounds { (from + row_size (k + k) ≤ length rows.now) × RowForm rows.now from (k + k) }
    requires k_in_bounds_2 { k + k < length target.old }
    ensures { target.new ≡ written (k + k) (substitute (block 0 k ++ set (block k k) i (substitute (block k k) (row_of k (drop place words.now)))) (row_of (k + k) (drop from rows.now))) target.old }
{
    let columns = k + k;
    row_buffers::copy_row(rows, from, columns, columns, target);
    let column = k + i;
    target[1 + column] = 0;
    let at = reading::coefficients_from(from) + column;
    add_expression(words, place, k, columns, rows, at, target);
}

// The row of m columns at `from` of the rows, with the image's rows put in for its columns.
pub fn substitute_image(
    words: &[i32],
    image: Image,
    s: Shape,
    columns: usize,
    rows: &[i32],
    from: usize,
    m: usize,
    target: &mut [i64],
)
    requires image_here { ImageHere words.now s image columns m }
    requires m_in_bounds { (from + row_size m ≤ length rows.now) × RowForm rows.now from m }
    requires columns_in_bounds { columns < length target.old }
    ensures { target.new ≡ written columns (substitute (image_rows words.now s image) (row_of m (drop from rows.now))) target.old }
{
    match image {
        Image::Start => {
            put_start(s, columns, rows, from, target);
        }
        Image::Path => {
            row_buffers::copy_row(rows, from, m, columns, target);
        }
        Image::Assign(i, place) => {
            put_assigned(words, place, i, s.k, rows, from, target);
        }
        Image::Entry(place) => {
            put_entry(words, place, s, columns, rows, from, target);
        }
        Image::Return => {
            put_return(s, columns, rows, from, target);
        }
        Image::Exit => {
            put_exit(s, columns, rows, from, target);
        }
        Image::Called(place) => {
            put_called(words, place, s, columns, rows, from, target);
        }
    }
}
