// The premises of an entailment, as rows of a flat buffer: the rows of a disjunct, and behind them the rows of a guard or of a summary. Sparse rows of a
// disjunct can be left where they stand, by a table of their places; then the buffer holds the others.
#![tactic(auto)]

ghost use Rattle.std.specs.Prelude.{◌≡◌, true, ◌++◌, ◌+◌, ◌*◌, ◌≤◌, ◌<◌, nat_abs, length, drop};
ghost use Rattle.rows.specs.Rows.{substitute, substitute_all};
ghost use Rattle.rows.specs.Columns.{columns as columnsFrom};
ghost use Rattle.words.specs.declared.StoredForm.TheVariants.{Dense};
ghost use Rattle.words.specs.Limits.{constant_limit};
ghost use Rattle.words.specs.RowWords.{constant_at, row_size, row_of, rows_of};
ghost use Rattle.words.specs.StoredRows.{rows_in};
ghost use Rattle.certificate_readers.specs.Disjuncts.{DisjunctHere};
ghost use Rattle.row_buffers.specs.HeldRows.{stride};
ghost use Rattle.row_buffers.specs.Entries.{entry};
ghost use Rattle.row_buffers.specs.EntryLimits.{most_buffer_columns, entry_limit, Capacity};
ghost use Rattle.row_buffers.specs.FlatRows.{flat_rows, pushed};
ghost use Rattle.entailments.specs.GuardRows.{signed, guard_row};
ghost use Rattle.entailments.specs.OpCases.{op_cases, guards_now, negative, strict};
ghost use Rattle.entailments.specs.declared.Image.TheVariants.{Called};
ghost use Rattle.entailments.specs.Meaning.{image_rows};
ghost use Rattle.entailments.specs.Forms.{ShapeForm, ImageHere, EntailmentForm};
ghost use Rattle.entailments.specs.Filled.{LongBuffer};
ghost use Rattle.premises.specs.PushedRows.{pushed_rows};
ghost use Rattle.premises.specs.FilledPremises.{FilledWith};
ghost use Rattle.premises.specs.DisjunctPlaces.{DisjunctPlaced};

use crate::sparse::{push_sparse, row_places, spread_rows};
use entailments::{Added, Entailment, Image, Shape, ops};
use program_readers::kinds::Op;
use words::StoredForm;

pub mod sparse;

// What a word says, or its negative.
fn signed_number(x: i64, negative: bool) -> i64
    requires { nat_abs x ≤ entry_limit }
    ensures is { result ≡ signed negative x }
    ensures small { nat_abs result ≤ entry_limit }
{
    if negative {
        return 0 - x;
    }
    x
}

// Which of e, −e, e + 1 and −e + 1 a row e becomes.
#[derive(Clone, Copy)]
pub struct Variant {
    pub negative: bool,
    pub plus: bool,
}

// Entry i of a variant of e, whose k columns are moved to those from `shift` on. e stands at `place`.
fn moved_entry(
    words: &[i32],
    place: usize,
    k: usize,
    variant: Variant,
    shift: usize,
    i: usize,
) -> i64
    requires k_in_bounds { (place + row_size k ≤ length words.now) × (nat_abs (constant_at words.now place) ≤ constant_limit) }
    requires k_bound { shift + k ≤ most_buffer_columns }
    ensures { result ≡ entry i (substitute (columnsFrom shift k) (guard_row variant.negative variant.plus (row_of k (drop place words.now)))) }
{
    if i == 0 {
        let constant = signed_number(numbers::constant_at(words, place), variant.negative);
        if variant.plus {
            return constant + 1;
        }
        return constant;
    }
    if i <= shift {
        return 0;
    }
    if shift + k < i {
        return 0;
    }
    let at = reading::coefficients_from(place) + (i - shift - 1);
    signed_number(numbers::wide(words, at), variant.negative)
}

// That row, behind the n rows of the buffer.
pub fn push_row(
    words: &[i32],
    place: usize,
    k: usize,
    variant: Variant,
    shift: usize,
    columns: usize,
    premises: &mut [i64],
    n: usize,
)
    requires k_in_bounds { (place + row_size k ≤ length words.now) × (nat_abs (constant_at words.now place) ≤ constant_limit) }
    requires k_bound { shift + k ≤ columns }
    requires capacity { Capacity columns (n + 1) (length premises.old) }
    ensures { premises.new ≡ pushed columns n (substitute (columnsFrom shift k) (guard_row variant.negative variant.plus (row_of k (drop place words.now)))) premises.old }
{
    let at = n * (1 + columns);
    for i in 0..1 + columns {
        premises[at + i] = moved_entry(words, place, k, variant, shift, i);
    }
}

// The `count` dense rows of m columns at `from` of the row words, as the buffer's first rows, each filled up with zeros.
fn copy_dense(
    rows: &[i32],
    from: usize,
    m: usize,
    count: usize,
    columns: usize,
    premises: &mut [i64],
)
    requires m_in_bounds { from + count * row_size m ≤ length rows.now }
    requires m_le_columns { m ≤ columns }
    requires capacity { Capacity columns count (length premises.old) }
    ensures { premises.new ≡ flat_rows columns (rows_of m count (drop from rows.now)) ++ drop (count * stride columns) premises.old }
{
    let size = reading::row_words(m);
    for j in 0..count {
        let place = from + j * size;
        let row = j * (1 + columns);
        row_buffers::copy_row(rows, place, m, columns, &mut premises[row..]);
    }
}

// The `count` rows of m columns at `from` of the row words, in their form, as the buffer's first rows, each filled up with zeros.
fn copy_rows(
    rows: &[i32],
    from: usize,
    m: usize,
    count: usize,
    columns: usize,
    form: StoredForm,
    premises: &mut [i64],
)
    requires disjunct_here { DisjunctHere form m rows.now from count }
    requires m_le_columns { m ≤ columns }
    requires capacity { Capacity columns count (length premises.old) }
    ensures { premises.new ≡ flat_rows columns (rows_in form m count (drop from rows.now)) ++ drop (count * stride columns) premises.old }
{
    match form {
        StoredForm::Dense => {
            copy_dense(rows, from, m, count, columns, premises);
        }
        StoredForm::Sparse => {
            spread_rows(rows, from, m, count, columns, premises);
        }
    }
}

// What e becomes in the first row of a case of `e op 0`.
#[tactic(auto, unfolding(entailments::specs::OpCases::negative, entailments::specs::OpCases::strict))]
fn first_variant(op: Op, case: usize) -> Variant
    ensures negative { result.negative ≡ negative op case }
    ensures plus { result.plus ≡ strict op }
{
    let negative = match op {
        Op::Greater | Op::AtLeast => true,
        _ => case == 1,
    };
    let plus = match op {
        Op::Less | Op::Greater | Op::Different => true,
        _ => false,
    };
    Variant { negative, plus }
}

// The guard rows of a case of `e op 0`, behind the n rows of the buffer; how many there are. e stands at `place`.
fn push_case(
    words: &[i32],
    place: usize,
    k: usize,
    op: Op,
    case: usize,
    columns: usize,
    premises: &mut [i64],
    n: usize,
) -> usize
    requires k_in_bounds { (place + row_size k ≤ length words.now) × (nat_abs (constant_at words.now place) ≤ constant_limit) }
    requires k_bound { k + k ≤ columns }
    requires capacity { Capacity columns (n + 2) (length premises.old) }
    requires case_bound { case < length (op_cases op (row_of k (drop place words.now))) }
    ensures rows { premises.new ≡ pushed_rows columns n (guards_now k op case (row_of k (drop place words.now))) premises.old }
    ensures count { result ≡ length (guards_now k op case (row_of k (drop place words.now))) }
{
    if op == Op::Choice {
        return 0;
    }
    let first = first_variant(op, case);
    push_row(words, place, k, first, k, columns, premises, n);
    if op == Op::Equal {
        let second = Variant {
            negative: true,
            plus: false,
        };
        push_row(words, place, k, second, k, columns, premises, n + 1);
        return 2;
    }
    1
}

// The `count` dense rows of a summary's disjunct at `from` of the row words, behind the n rows of the buffer: over the columns of the call, whose
// actuals stand at `at` of the words.
fn push_dense(
    words: &[i32],
    at: usize,
    s: Shape,
    rows: &[i32],
    from: usize,
    count: usize,
    premises: &mut [i64],
    n: usize,
)
    requires image_here { ImageHere words.now s (Called at) (s.k + s.k + s.globals) (s.globals + s.parameters + s.globals) }
    requires disjunct_here { DisjunctHere Dense (s.globals + s.parameters + s.globals) rows.now from count }
    requires capacity { Capacity (s.k + s.k + s.globals) (n + count) (length premises.old) }
    ensures { premises.new ≡ pushed_rows (s.k + s.k + s.globals) n (substitute_all (image_rows words.now s (Called at)) (rows_of (s.globals + s.parameters + s.globals) count (drop from rows.now))) premises.old }
{
    let columns = s.k + s.k + s.globals;
    let m = s.globals + s.parameters + s.globals;
    let size = reading::row_words(m);
    for i in 0..count {
        let row = (n + i) * (1 + columns);
        images::substitution::substitute_image(
            words,
            Image::Called(at),
            s,
            columns,
            rows,
            from + i * size,
            m,
            &mut premises[row..],
        );
    }
}

// The `count` rows of a summary's disjunct at `from` of the row words, in the entailment's form, behind the n rows of the buffer: over the columns of the
// call, whose actuals stand at `at` of the words.
fn push_summary(
    e: Entailment,
    words: &[i32],
    rows: &[i32],
    from: usize,
    count: usize,
    at: usize,
    premises: &mut [i64],
    n: usize,
)
    requires image_here { ImageHere words.now e.shape (Called at) (e.shape.k + e.shape.k + e.shape.globals) (e.shape.globals + e.shape.parameters + e.shape.globals) }
    requires disjunct_here { DisjunctHere e.form (e.shape.globals + e.shape.parameters + e.shape.globals) rows.now from count }
    requires capacity { Capacity (e.shape.k + e.shape.k + e.shape.globals) (n + count) (length premises.old) }
    ensures { premises.new ≡ pushed_rows (e.shape.k + e.shape.k + e.shape.globals) n (substitute_all (image_rows words.now e.shape (Called at)) (rows_in e.form (e.shape.globals + e.shape.parameters + e.shape.globals) count (drop from rows.now))) premises.old }
{
    let s = e.shape;
    let form = e.form;
    match form {
        StoredForm::Dense => {
            push_dense(words, at, s, rows, from, count, premises, n);
        }
        StoredForm::Sparse => {
            push_sparse(words, at, s, rows, from, count, premises, n);
        }
    }
}

// The premises of an entailment, with the first n rows of its disjunct in place of all, as the first rows of the buffer; how many they are.
pub fn fill_premises(
    e: Entailment,
    words: &[i32],
    rows: &[i32],
    n: usize,
    premises: &mut [i64],
) -> usize
    requires entailment_form { EntailmentForm words.now rows.now e }
    requires n_le_n { n ≤ e.n }
    requires long_buffer { LongBuffer premises.old }
    ensures { FilledWith words.now rows.now e n result premises.new }
{
    let s = e.shape;
    let columns = e.columns;
    let form = e.form;
    copy_rows(rows, e.from, s.k + s.k, n, columns, form, premises);
    let added = e.added;
    match added {
        Added::Nothing => n,
        Added::Guard(number, case, at) => {
            let op = ops::op_of(number);
            let guards = push_case(words, at, s.k, op, case, columns, premises, n);
            n + guards
        }
        Added::Summary(from, count, at) => {
            push_summary(e, words, rows, from, count, at, premises, n);
            n + count
        }
    }
}

// Whether the rows of an entailment's disjunct are left where they stand: sparse ones are that take no more words than dense ones would. Then the table has
// their places; else what it holds afterwards is left open.
pub fn rows_placed(e: Entailment, rows: &[i32], places: &mut [usize]) -> bool
    requires disjunct_here { DisjunctHere e.form (e.shape.k + e.shape.k) rows.now e.from e.n }
    requires shape_form { ShapeForm e.shape × (e.n ≤ length places.old) }
    ensures { result ≡ true → DisjunctPlaced rows.now e places.new }
{
    let form = e.form;
    match form {
        StoredForm::Dense => false,
        StoredForm::Sparse => {
            let s = e.shape;
            let m = s.k + s.k;
            let n = e.n;
            let from = e.from;
            let end = row_places(rows, from, m, n, places);
            let dense = n * reading::row_words(m);
            end <= from + dense
        }
    }
}
