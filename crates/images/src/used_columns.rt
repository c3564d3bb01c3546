// A sparse row with an image put in: the columns that have a coefficient are added one by one, each as what it becomes. Where the columns stay as they
// are, the row is spread.
ghost use Rattle.std.specs.Prelude.{◌≡◌, List, ◌++◌, ℕ, ◌+◌, ◌-◌, ◌≤◌, ◌<◌, ℤ, nat_abs, length, set, drop};
ghost use Rattle.rows.specs.Rows.{add, scale, substitute};
ghost use Rattle.rows.specs.Columns.{columns as block};
ghost use Rattle.words.specs.declared.StoredForm.TheVariants.{Sparse};
ghost use Rattle.words.specs.Words.{word};
ghost use Rattle.words.specs.RowWords.{row_of};
ghost use Rattle.words.specs.RowForm.{Expression, Expressions};
ghost use Rattle.words.specs.SparseRows.{used_of, sparse_size, sparse_row_of};
ghost use Rattle.certificate_readers.specs.Disjuncts.{RowStands};
ghost use Rattle.row_buffers.specs.HeldRows.{held_row};
ghost use Rattle.row_buffers.specs.Spread.{written};
ghost use Rattle.row_buffers.specs.EntryLimits.{weight_limit, sum_limit, SmallRow};
ghost use Rattle.entailments.specs.Meaning.{image_rows, actuals_at};
ghost use Rattle.entailments.specs.Forms.{ShapeForm, ImageForm, ImageHere, columns_of, width_of};
ghost use Rattle.images.specs.Becoming.{becomes_row, BecomesForm, Becoming};

use crate::substitution::add_expression;
use entailments::{Image, Shape};

// What a column of the target becomes: one of the entailment's columns, or the expression at a place.
#[derive(Drop)]
pub enum Becomes {
    Column(usize),
    Expression(usize),
}

// Column c of those that a procedure is entered with: the globals now, the actuals at `place`, and then the columns behind the path's.
fn entered_column(words: &[i32], place: usize, s: Shape, c: usize) -> Becomes
    requires shape_form { ShapeForm s }
    requires expressions { Expressions words.now place s.k s.parameters }
    requires globals_le_k { (s.globals ≤ s.k) × (c ≤ 64) }
    ensures { (fresh : ℕ) → c < s.globals + (s.parameters + fresh) → Becoming words.now s.k (s.k + s.k + fresh) (block s.k s.globals ++ (actuals_at words.now s place ++ block (s.k + s.k) fresh)) c result }
{
    if c < s.globals {
        return Becomes::Column(s.k + c);
    }
    let actual = c - s.globals;
    if actual < s.parameters {
        return Becomes::Expression(place + actual * reading::row_words(s.k));
    }
    Becomes::Column(s.k + s.k + (actual - s.parameters))
}

// Column c of a path's, with the expression at `place` put in for column i of those now.
fn assigned_column(place: usize, i: usize, k: usize, c: usize) -> Becomes
    requires i_lt_k { (i < k) × (k ≤ 64) }
    requires c_bound { c < k + k }
    ensures { (words : List ℤ) → Expression words place k → Becoming words k (k + k) (block 0 k ++ set (block k k) i (substitute (block k k) (row_of k (drop place words)))) c result }
{
    if c == k + i {
        return Becomes::Expression(place);
    }
    Becomes::Column(c)
}

// Column c of a path's, behind a call: the globals now are those that it returns with.
fn returned_column(s: Shape, c: usize) -> Becomes
    requires shape_form { ShapeForm s }
    requires globals_le_k { s.globals ≤ s.k }
    requires c_bound { c < s.k + s.k }
    ensures { (words : List ℤ) → Becoming words s.k (s.k + s.k + s.globals) (block 0 s.k ++ (block (s.k + s.k) s.globals ++ block (s.k + s.globals) (s.k - s.globals))) c result }
{
    if c < s.k {
        return Becomes::Column(c);
    }
    if c < s.k + s.globals {
        return Becomes::Column(s.k + c);
    }
    Becomes::Column(c)
}

// What column c of the target becomes.
fn image_of(words: &[i32], image: Image, s: Shape, c: usize) -> Becomes
    requires shape_form { ShapeForm s }
    requires image_form { ImageForm words.now s image }
    requires c_bound { c < width_of s image }
    ensures { Becoming words.now s.k (columns_of s image) (image_rows words.now s image) c result }
{
    match image {
        Image::Start => {
            let own = s.globals + (s.parameters + s.others);
            if c < own {
                return Becomes::Column(c);
            }
            Becomes::Column(c - own)
        }
        Image::Path => Becomes::Column(c),
        Image::Assign(i, place) => assigned_column(place, i, s.k, c),
        Image::Entry(place) => {
            let callee = s.globals + (s.parameters + s.others);
            if c < callee {
                return entered_column(words, place, s, c);
            }
            entered_column(words, place, s, c - callee)
        }
        Image::Return => returned_column(s, c),
        Image::Exit => {
            let entered = s.globals + s.parameters;
            if c < entered {
                return Becomes::Column(c);
            }
            Becomes::Column(s.k + (c - entered))
        }
        Image::Called(place) => entered_column(words, place, s, c),
    }
}

// Adds what a column becomes, times the word at `at` of the rows.
fn add_used(
    words: &[i32],
    b: Becomes,
    k: usize,
    columns: usize,
    rows: &[i32],
    at: usize,
    target: &mut [i64],
)
    requires becomes_form { BecomesForm words.now k columns b }
    requires k_bound { k + k ≤ columns }
    requires at_in_bounds { (at < length rows.now) × (nat_abs (word rows.now at) ≤ weight_limit) }
    requires columns_in_bounds { (columns < length target.old) × SmallRow sum_limit (held_row columns target.old) }
    ensures { target.new ≡ written columns (add (held_row columns target.old) (scale (word rows.now at) (becomes_row words.now k b))) target.old }
{
    match b {
        Becomes::Column(c) => {
            row_buffers::add_column(rows, at, c, columns, target);
        }
        Becomes::Expression(place) => {
            add_expression(words, place, k, columns, rows, at, target);
        }
    }
}

// The sparse row of m columns at `from` of the rows, with the image's rows put in for its columns. Returns how many words the row takes.
fn sum_used(
    words: &[i32],
    image: Image,
    s: Shape,
    columns: usize,
    rows: &[i32],
    from: usize,
    m: usize,
    target: &mut [i64],
) -> usize
    requires image_here { ImageHere words.now s image columns m }
    requires row_stands { RowStands Sparse m rows.now from }
    requires columns_in_bounds { columns < length target.old }
    ensures target_after { target.new ≡ written columns (substitute (image_rows words.now s image) (sparse_row_of m (drop from rows.now))) target.old }
    ensures value { result ≡ sparse_size (used_of m (drop from rows.now)) }
{
    row_buffers::start_row(rows, from, columns, target);
    let used = sparse_rows::used_inside(rows, from, m);
    let first = from + 3;
    let values = first + used;
    for j in 0..used {
        let c = sparse_rows::natural_inside(rows, first + j);
        let b = image_of(words, image, s, c);
        add_used(words, b, s.k, columns, rows, values + j, target);
    }
    3 + (used + used)
}

// The same, by the shortest way.
pub fn substitute_sparse(
    words: &[i32],
    image: Image,
    s: Shape,
    columns: usize,
    rows: &[i32],
    from: usize,
    m: usize,
    target: &mut [i64],
) -> usize
    requires image_here { ImageHere words.now s image columns m }
    requires row_stands { RowStands Sparse m rows.now from }
    requires columns_in_bounds { columns < length target.old }
    ensures target_after { target.new ≡ written columns (substitute (image_rows words.now s image) (sparse_row_of m (drop from rows.now))) target.old }
    ensures value { result ≡ sparse_size (used_of m (drop from rows.now)) }
{
    if let Image::Path = image {
        return row_buffers::spread_row(rows, from, m, columns, target);
    }
    sum_used(words, image, s, columns, rows, from, m, target)
}
