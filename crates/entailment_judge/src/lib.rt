// One entailment, judged by the words of its witness. Its premises are filled into a buffer once, or sparse ones of a leaf are left where they stand;
// target rows and sums are made one after the other, in two more buffers.
// That a "weighted sum doesn't fit" is remembered while the entailment's words are still tested.
// `judge_entailment` is public for the crates above.
#![tactic(auto)]

pub mod in_place;
pub mod reader;
mod sides;
mod trees;
mod true_targets;

ghost use Rattle.std.specs.Prelude.{◌≡◌, true, ℕ, ◌+◌, ◌≤◌, ◌<◌, nat_abs, pos, ◌-ℤ◌, ◌*ℤ◌, length, drop};
ghost use Rattle.basics.specs.Integers.{eq_z};
ghost use Rattle.rows.specs.Rows.{fits_constant, substitute};
ghost use Rattle.words.specs.Limits.{most_divisor, most_rows};
ghost use Rattle.words.specs.StoredRows.{row_in, row_takes, rows_in};
ghost use Rattle.certificates.specs.CertificateWords.{row_count};
ghost use Rattle.certificate_readers.specs.Disjuncts.{DisjunctHere, RowStands};
ghost use Rattle.row_buffers.specs.HeldRows.{held_row, held_rows};
ghost use Rattle.row_buffers.specs.Spread.{written};
ghost use Rattle.row_buffers.specs.EntryLimits.{target_limit, SmallRow};
ghost use Rattle.row_buffers.specs.SumTests.{is_yielded, is_refuted};
ghost use Rattle.entailments.specs.Filled.{most_columns, LongBuffer};
ghost use Rattle.entailments.specs.Forms.{ImageHere, EntailmentForm};
ghost use Rattle.entailments.specs.Meaning.{image_rows, meaning_of};
ghost use Rattle.entailment_judge.specs.Buffers.{Premises};
ghost use Rattle.entailment_judge.specs.Judging.{read_share, read_fits, read_contradiction, judged_witness, judged_chosen};
ghost use Rattle.entailment_judge.specs.Answers.{leaf_of, verdict_from, verdict_of};
ghost use Rattle.entailment_judge.specs.SharedWords.{share_words};
ghost use Rattle.entailment_judge.specs.TrueTargets.{target_place, TargetHere};

use answers::Reason;
use entailments::Entailment;
use images::substitution::substitute_image;
use images::used_columns::substitute_sparse;
use words::StoredForm;

const MOST_DIVISOR: usize = 1000;

// On any way to a leaf.
const MOST_SPLITS: usize = 8;

// A row's constant and its coefficients, of which there are at most 40.
const MOST_ENTRIES: usize = 41;

// A part of a witness whose words are all there and in their range: whether its sums fit, and the place after its words.
#[derive(Clone, Copy)]
pub struct Leaf {
    pub fits: bool,
    pub next: usize,
}

// The divisor of a share, the place of its first multiplier and the place after the last.
#[derive(Clone, Copy)]
pub struct ShareWords {
    pub divisor: usize,
    pub first: usize,
    pub next: usize,
}

// `sum` is `divisor` times x.
fn is_multiple(sum: i64, divisor: usize, x: i64) -> bool
    requires { (divisor ≤ most_divisor) × (nat_abs x ≤ target_limit) }
    ensures { result ≡ eq_z sum (pos divisor *ℤ x) }
{
    numbers::same64(sum, numbers::add_mul(0, numbers::from_usize(divisor), x))
}

fn less_one(x: i64) -> i64
    requires { nat_abs x ≤ target_limit }
    ensures { result ≡ x -ℤ pos 1 }
{
    x - 1
}

// `sum` is at least `divisor` times (x − 1), plus 1.
fn constant_fits(sum: i64, divisor: usize, x: i64) -> bool
    requires { (divisor ≤ most_divisor) × (nat_abs x ≤ target_limit) }
    ensures { result ≡ fits_constant divisor x sum }
{
    numbers::le64(
        numbers::add_mul(1, numbers::from_usize(divisor), less_one(x)),
        sum,
    )
}

// The sum has the coefficients of `divisor` times the target row, and a constant that fits the target's.
fn is_yielded(sum: &[i64], target: &[i64], columns: usize, divisor: usize) -> bool
    requires columns_in_bounds { (columns < length sum.now) × (columns < length target.now) }
    requires divisor_le_most_divisor { (divisor ≤ most_divisor) × SmallRow target_limit (held_row columns target.now) }
    ensures { result ≡ is_yielded divisor (held_row columns sum.now) (held_row columns target.now) }
{
    for i in 1..1 + columns {
        if !is_multiple(sum[i], divisor, target[i]) {
            return false;
        }
    }
    constant_fits(sum[0], divisor, target[0])
}

// The sum has all coefficients 0 and constant at least 1.
fn is_refuted(sum: &[i64], columns: usize) -> bool
    requires { columns < length sum.now }
    ensures { result ≡ is_refuted (held_row columns sum.now) }
{
    for k in 1..1 + columns {
        if !numbers::same64(sum[k], 0) {
            return false;
        }
    }
    numbers::le64(1, sum[0])
}

// The target row at `from` of the row words, with the image put in for its columns. Returns how many words the row takes.
fn target_row(e: Entailment, words: &[i32], rows: &[i32], from: usize, target: &mut [i64]) -> usize
    requires image_here { ImageHere words.now e.shape e.image e.columns e.width }
    requires row_stands { RowStands e.form e.width rows.now from }
    requires columns_in_bounds { e.columns < length target.old }
    ensures target_after { target.new ≡ written e.columns (substitute (image_rows words.now e.shape e.image) (row_in e.form e.width (drop from rows.now))) target.old }
    ensures value { result ≡ row_takes e.form e.width (drop from rows.now) }
{
    let columns = e.columns;
    let width = e.width;
    let image = e.image;
    let shape = e.shape;
    let form = e.form;
    match form {
        StoredForm::Dense => {
            substitute_image(words, image, shape, columns, rows, from, width, target);
            reading::row_words(width)
        }
        StoredForm::Sparse => {
            substitute_sparse(words, image, shape, columns, rows, from, width, target)
        }
    }
}

// The words of the share at `at`, with n multipliers.
fn share_words(w: &[i32], at: usize, n: usize) -> Option<ShareWords>
    ensures { result ≡ share_words w.now at n }
{
    let divisor = reader::word_in(w, at, 1, MOST_DIVISOR)?;
    let first = divisor.at;
    let next = reader::read_multipliers(w, first, n)?;
    Some(ShareWords {
        divisor: divisor.number,
        first,
        next,
    })
}

// The share at `at` of the witness words, with the n premises in a buffer, for the row in the target's. `sum` is scratch: what it holds afterwards is
// left open.
fn share(
    premises: &[i64],
    columns: usize,
    n: usize,
    w: &[i32],
    at: usize,
    target: &[i64],
    sum: &mut [i64],
) -> Option<Leaf>
    requires premises { Premises columns n premises.now }
    requires at_in_bounds { at ≤ length w.now }
    requires columns_in_bounds { (columns < length target.now) × SmallRow target_limit (held_row columns target.now) }
    requires columns_in_bounds_2 { columns < length sum.old }
    ensures { result ≡ leaf_of w.now (read_share (held_rows columns n premises.now) (held_row columns target.now) n (drop at w.now)) }
{
    let words = share_words(w, at, n)?;
    let first = words.first;
    row_buffers::sum_rows(premises, columns, n, w, first, sum);
    let fits = is_yielded(sum, target, columns, words.divisor);
    Some(Leaf {
        fits,
        next: words.next,
    })
}

// The shares at `at` for the rows of the target disjunct at p.
fn judge_rows(
    e: Entailment,
    words: &[i32],
    rows: &[i32],
    p: usize,
    premises: &[i64],
    n: usize,
    w: &[i32],
    at: usize,
) -> Option<Leaf>
    requires image_here { ImageHere words.now e.shape e.image e.columns e.width }
    requires disjunct_here { DisjunctHere e.form e.width rows.now (p + 1) (row_count rows.now p) }
    requires premises { Premises e.columns n premises.now }
    requires at_in_bounds { at ≤ length w.now }
    ensures { result ≡ leaf_of w.now (read_fits (image_rows words.now e.shape e.image) (held_rows e.columns n premises.now) n (rows_in e.form e.width (row_count rows.now p) (drop (p + 1) rows.now)) true (drop at w.now)) }
{
    let count = certificate_readers::row_count(rows, p);
    let columns = e.columns;
    let mut target = [0i64; MOST_ENTRIES];
    let mut sum = [0i64; MOST_ENTRIES];
    let mut next = at;
    let mut from = p + 1;
    let mut fits = true;
    for i in 0..count {
        let size = target_row(e, words, rows, from, &mut target);
        let one = share(premises, columns, n, w, next, &target, &mut sum)?;
        fits = fits & one.fits;
        next = one.next;
        from = from + size;
    }
    Some(Leaf { fits, next })
}

// The contradiction whose multipliers stand at `at`.
fn judge_contradiction(
    premises: &[i64],
    columns: usize,
    n: usize,
    w: &[i32],
    at: usize,
) -> Option<Leaf>
    requires columns_le_most_columns { columns ≤ most_columns }
    requires premises { Premises columns n premises.now }
    requires at_in_bounds { at ≤ length w.now }
    ensures { result ≡ leaf_of w.now (read_contradiction (held_rows columns n premises.now) n (drop at w.now)) }
{
    let end = reader::read_multipliers(w, at, n)?;
    let mut sum = [0i64; MOST_ENTRIES];
    row_buffers::sum_rows(premises, columns, n, w, at, &mut sum);
    let fits = is_refuted(&sum, columns);
    Some(Leaf { fits, next: end })
}

// The place after a witness that fits, or the reason for its refusal.
fn verdict_of(judged: Option<Leaf>) -> Result<usize, Reason>
    ensures { result ≡ verdict_from judged }
{
    let leaf = judged.ok_or(Reason::WitnessWord)?;
    if leaf.fits {
        return Ok(leaf.next);
    }
    Err(Reason::WeightedSum)
}

// The verdict on a leaf, from the word behind its first on, with the premises filled in: a contradiction, or the target disjunct at a place.
fn leaf_verdict(
    e: Entailment,
    words: &[i32],
    rows: &[i32],
    w: &[i32],
    target: Option<usize>,
    next: usize,
    premises: &mut [i64],
) -> Result<usize, Reason>
    requires entailment_form { EntailmentForm words.now rows.now e }
    requires target_here { TargetHere rows.now e target }
    requires next_in_bounds { next ≤ length w.now }
    requires long_buffer { LongBuffer premises.old }
    ensures { (j : ℕ) → j ≤ e.count → target ≡ target_place rows.now e j → result ≡ verdict_of w.now (judged_chosen (meaning_of words.now rows.now e) j (drop next w.now)) }
{
    let all = e.n;
    let n = premises::fill_premises(e, words, rows, all, premises);
    verdict_of(trees::judge_at(e, words, rows, premises, n, w, target, next))
}

// The verdict on the witness at `at`, leaf or split, with the premises filled in.
fn tree_verdict(
    e: Entailment,
    words: &[i32],
    rows: &[i32],
    w: &[i32],
    at: usize,
    premises: &mut [i64],
) -> Result<usize, Reason>
    requires entailment_form { EntailmentForm words.now rows.now e }
    requires at_in_bounds { at ≤ length w.now }
    requires long_buffer { LongBuffer premises.old }
    ensures { result ≡ verdict_of w.now (judged_witness (meaning_of words.now rows.now e) (drop at w.now)) }
{
    let all = e.n;
    let n = premises::fill_premises(e, words, rows, all, premises);
    verdict_of(trees::judge_tree(e, words, rows, premises, n, w, at, MOST_SPLITS))
}

// One entailment, judged by the words of its witness, which stand at `at`: the place of the next unread word, or the reason for its refusal. Where the
// first word names a disjunct without rows no premise is filled in, and the entailment isn't copied: the functions that go on from here are called with
// it by value. The premises' buffer and the table of places are scratch: what they hold afterwards is left open.
pub fn judge_entailment(
    e: Entailment,
    words: &[i32],
    rows: &[i32],
    w: &[i32],
    at: usize,
    premises: &mut [i64],
    places: &mut [usize],
) -> Result<usize, Reason>
    requires entailment_form { EntailmentForm words.now rows.now e }
    requires at_in_bounds { at ≤ length w.now }
    requires long_buffer { LongBuffer premises.old × (most_rows ≤ length places.old) }
    ensures { result ≡ verdict_of w.now (judged_witness (meaning_of words.now rows.now e) (drop at w.now)) }
{
    let count = e.count;
    let x = reader::word_in(w, at, 0, count);
    match x {
        Some(first) => {
            let next = first.at;
            let target = true_targets::named(e, rows, first.number);
            if true_targets::is_true(rows, target) {
                return Ok(next);
            }
            if premises::rows_placed(e, rows, places) {
                return in_place::leaf_verdict(e, words, rows, w, target, next, places, premises);
            }
            leaf_verdict(e, words, rows, w, target, next, premises)
        }
        None => tree_verdict(e, words, rows, w, at, premises),
    }
}
