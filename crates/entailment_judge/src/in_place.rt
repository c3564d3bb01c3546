// A leaf judged with the sparse rows of the entailment's disjunct left where they stand: they are summed by a table of their places, and behind them the
// rows that are added to the disjunct, which a buffer holds.
ghost use Rattle.std.specs.Prelude.{◌≡◌, true, ℕ, ◌+◌, ◌≤◌, ◌<◌, length, drop};
ghost use Rattle.words.specs.StoredRows.{rows_in};
ghost use Rattle.certificates.specs.CertificateWords.{row_count};
ghost use Rattle.certificate_readers.specs.Disjuncts.{DisjunctHere};
ghost use Rattle.row_buffers.specs.HeldRows.{held_row};
ghost use Rattle.row_buffers.specs.EntryLimits.{target_limit, SmallRow};
ghost use Rattle.entailments.specs.Filled.{most_columns, LongBuffer};
ghost use Rattle.entailments.specs.Forms.{ImageHere, EntailmentForm};
ghost use Rattle.entailments.specs.Meaning.{image_rows, meaning_of};
ghost use Rattle.premises.specs.DisjunctPlaces.{DisjunctPlaced};
ghost use Rattle.entailment_judge.specs.Parted.{parted_rows, Parted};
ghost use Rattle.entailment_judge.specs.Judging.{read_share, read_fits, read_contradiction, judged_chosen};
ghost use Rattle.entailment_judge.specs.Answers.{leaf_of, verdict_of};
ghost use Rattle.entailment_judge.specs.TrueTargets.{target_place, TargetHere};

use crate::{Leaf, reader};
use answers::Reason;
use entailments::Entailment;

// A row's constant and its coefficients, of which there are at most 40.
const MOST_ENTRIES: usize = 41;

// The premises in two parts: `own` sparse rows of m columns, whose places a table has, and `added` rows of a buffer, of so many columns.
#[derive(Clone, Copy)]
pub struct Parts {
    pub own: usize,
    pub m: usize,
    pub added: usize,
    pub columns: usize,
}

// The share at `at` of the witness words, for the row in the target's buffer. `sum` is scratch: what it holds afterwards is left open.
fn share(
    rows: &[i32],
    places: &[usize],
    premises: &[i64],
    n: Parts,
    w: &[i32],
    at: usize,
    target: &[i64],
    sum: &mut [i64],
) -> Option<Leaf>
    requires parted { Parted rows.now places.now n premises.now }
    requires columns_in_bounds { (n.columns < length target.now) × SmallRow target_limit (held_row n.columns target.now) }
    requires columns_in_bounds_2 { n.columns < length sum.old }
    ensures { result ≡ leaf_of w.now (read_share (parted_rows rows.now places.now n premises.now) (held_row n.columns target.now) (n.own + n.added) (drop at w.now)) }
{
    let own = n.own;
    let added = n.added;
    let columns = n.columns;
    let words = crate::share_words(w, at, own + added)?;
    let first = words.first;
    row_buffers::sum_sparse(rows, places, own, n.m, columns, w, first, sum);
    row_buffers::add_rows(premises, columns, added, w, first + own, sum);
    let fits = crate::is_yielded(sum, target, columns, words.divisor);
    Some(Leaf {
        fits,
        next: words.next,
    })
}

// The shares at `at` for the rows of the target disjunct at p.
fn judge_rows(
    e: Entailment,
    words: &[i32],
    rows: &[i32],
    p: usize,
    places: &[usize],
    premises: &[i64],
    n: Parts,
    w: &[i32],
    at: usize,
) -> Option<Leaf>
    requires image_here { ImageHere words.now e.shape e.image e.columns e.width }
    requires disjunct_here { DisjunctHere e.form e.width rows.now (p + 1) (row_count rows.now p) }
    requires parted { Parted rows.now places.now n premises.now × (n.columns ≡ e.columns) }
    requires at_in_bounds { at ≤ length w.now }
    ensures { result ≡ leaf_of w.now (read_fits (image_rows words.now e.shape e.image) (parted_rows rows.now places.now n premises.now) (n.own + n.added) (rows_in e.form e.width (row_count rows.now p) (drop (p + 1) rows.now)) true (drop at w.now)) }
{
    let count = certificate_readers::row_count(rows, p);
    let mut target = [0i64; MOST_ENTRIES];
    let mut sum = [0i64; MOST_ENTRIES];
    let mut next = at;
    let mut from = p + 1;
    let mut fits = true;
    for i in 0..count {
        let size = crate::target_row(e, words, rows, from, &mut target);
        let one = share(rows, places, premises, n, w, next, &target, &mut sum)?;
        fits = fits & one.fits;
        next = one.next;
        from = from + size;
    }
    Some(Leaf { fits, next })
}

// The contradiction whose multipliers stand at `at`.
fn judge_contradiction(
    rows: &[i32],
    places: &[usize],
    premises: &[i64],
    n: Parts,
    w: &[i32],
    at: usize,
) -> Option<Leaf>
    requires columns_le_most_columns { n.columns ≤ most_columns }
    requires parted { Parted rows.now places.now n premises.now }
    requires at_in_bounds { at ≤ length w.now }
    ensures { result ≡ leaf_of w.now (read_contradiction (parted_rows rows.now places.now n premises.now) (n.own + n.added) (drop at w.now)) }
{
    let own = n.own;
    let added = n.added;
    let columns = n.columns;
    let end = reader::read_multipliers(w, at, own + added)?;
    let mut sum = [0i64; MOST_ENTRIES];
    row_buffers::sum_sparse(rows, places, own, n.m, columns, w, at, &mut sum);
    row_buffers::add_rows(premises, columns, added, w, at + own, &mut sum);
    let fits = crate::is_refuted(&sum, columns);
    Some(Leaf { fits, next: end })
}

// The verdict on a leaf, from the word behind its first on, with what is added to the disjunct filled in: a contradiction, or the target disjunct at a
// place.
pub(crate) fn leaf_verdict(
    e: Entailment,
    words: &[i32],
    rows: &[i32],
    w: &[i32],
    target: Option<usize>,
    next: usize,
    places: &[usize],
    premises: &mut [i64],
) -> Result<usize, Reason>
    requires entailment_form { EntailmentForm words.now rows.now e }
    requires disjunct_placed { DisjunctPlaced rows.now e places.now }
    requires target_here { TargetHere rows.now e target }
    requires next_in_bounds { next ≤ length w.now }
    requires long_buffer { LongBuffer premises.old }
    ensures { (j : ℕ) → j ≤ e.count → target ≡ target_place rows.now e j → result ≡ verdict_of w.now (judged_chosen (meaning_of words.now rows.now e) j (drop next w.now)) }
{
    let k = e.shape.k;
    let m = k + k;
    let own = e.n;
    let columns = e.columns;
    let added = premises::fill_premises(e, words, rows, 0, premises);
    let n = Parts {
        own,
        m,
        added,
        columns,
    };
    match target {
        Some(p) => {
            crate::verdict_of(judge_rows(e, words, rows, p, places, premises, n, w, next))
        }
        None => { crate::verdict_of(judge_contradiction(rows, places, premises, n, w, next)) }
    }
}
