// Witnesses walked and not read: where the next one begins, and which targets the leaves name. A leaf's first word tells how many words follow, so
// a walk costs by leaves and not by words. What is promised holds for all words; of the words of a witness that is shaped for its entailment it is
// what the witness takes and names: `witness_marked` in specs/Witnessed.antt.
#![tactic(auto)]

ghost use Rattle.std.specs.Prelude.{◌≡◌, ◌+◌, ◌≤◌, ◌<◌, ◌∷◌, pos, length, drop};
ghost use Rattle.words.specs.Limits.{most_rows};
ghost use Rattle.words.specs.Words.{word};
ghost use Rattle.trimming.specs.Walks.{walked_leaf, walk};
ghost use Rattle.witness_walks.specs.Counts.{guard_rows, added_rows, FewAdded};
ghost use Rattle.witness_walks.specs.Marks.{Walkable, targets_of, MarkedBy};
ghost use Rattle.witness_walks.specs.Witnessed.{walked_from};

use entailments::{Added, Entailment};

// On any way to a leaf.
const MOST_SPLITS: usize = 8;

// The place so many words on, or the end of the words.
pub fn past(w: &[i32], at: usize, size: usize) -> usize
    requires { at ≤ length w.now }
    ensures { (drop result w.now ≡ drop size (drop at w.now)) × (result ≤ length w.now) }
{
    if w.len() - at < size {
        return w.len();
    }
    at + size
}

// A leaf whose first word, at `at`, is j, for n premises: a contradiction, or the target disjunct that j names, whose flag is set.
fn mark_leaf(
    e: Entailment,
    rows: &[i32],
    w: &[i32],
    at: usize,
    n: usize,
    j: usize,
    named: &mut [u8],
) -> usize
    requires walkable { Walkable rows.now e × (e.count ≤ length named.old) }
    requires at_in_bounds { (at < length w.now) × (word w.now at ≡ pos j) }
    requires n_bound { n ≤ 1000 }
    ensures { MarkedBy w.now (walked_leaf n (targets_of rows.now e) (pos j ∷ drop (at + 1) w.now)) result named.old named.new }
{
    let next = at + 1;
    if j == 0 {
        return past(w, next, n);
    }
    let count = e.count;
    if count < j {
        return at;
    }
    let i = j - 1;
    let form = e.form;
    let p = certificate_readers::disjunct_place(rows, e.place, e.width, i, form);
    let m = certificate_readers::row_count(rows, p);
    named[i] = 1;
    past(w, next, m * (1 + n))
}

// The witness at `at`, for n premises, with so many splits left: the place after it.
fn mark_tree(
    e: Entailment,
    rows: &[i32],
    w: &[i32],
    at: usize,
    n: usize,
    depth: usize,
    named: &mut [u8],
) -> usize
    requires walkable { Walkable rows.now e × (e.count ≤ length named.old) }
    requires at_in_bounds { at ≤ length w.now }
    requires depth_bound { n + depth ≤ 1000 }
    ensures { MarkedBy w.now (walk depth e.columns n (targets_of rows.now e) (drop at w.now)) result named.old named.new }
{
    if w.len() <= at {
        return at;
    }
    let first = reading::natural_at(w, at);
    match first {
        Some(j) => mark_leaf(e, rows, w, at, n, j, named),
        None => {
            if depth == 0 {
                return at;
            }
            let one = reading::word_small(w, at, 1);
            if !one {
                return at;
            }
            let row = at + 1;
            let begin = past(w, row, reading::row_words(e.columns));
            let more = n + 1;
            let left = depth - 1;
            let second = mark_tree(e, rows, w, begin, more, left, named);
            mark_tree(e, rows, w, second, more, left, named)
        }
    }
}

// How many rows a case of an op has: `?` none, `=` two.
fn guard_rows(op: usize) -> usize
    ensures { result ≡ guard_rows op }
{
    if op == 0 {
        return 0;
    }
    if op == 5 {
        return 2;
    }
    1
}

// How many premises an entailment has.
pub fn premise_count(e: Entailment) -> usize
    requires { (e.n ≤ most_rows) × FewAdded e.added }
    ensures value { result ≡ e.n + added_rows e.added }
    ensures upper_bound { result ≤ 64 }
{
    let n = e.n;
    let added = e.added;
    match added {
        Added::Nothing => n,
        Added::Guard(op, _, _) => n + guard_rows(op),
        Added::Summary(_, m, _) => n + m,
    }
}

// The witness of an entailment at `at`: the place after it; the flags of the targets that it names are set.
pub fn mark_witness(e: Entailment, rows: &[i32], w: &[i32], at: usize, named: &mut [u8]) -> usize
    requires walkable { Walkable rows.now e × (e.count ≤ length named.old) }
    requires at_in_bounds { at ≤ length w.now }
    ensures { MarkedBy w.now (walked_from rows.now e (drop at w.now)) result named.old named.new }
{
    let n = premise_count(e);
    mark_tree(e, rows, w, at, n, MOST_SPLITS, named)
}
