// A witness followed from its first word: a leaf is judged by the premises in the buffer; a split's two witnesses have one premise more and one
// split less left.
ghost use Rattle.std.specs.Prelude.{◌≡◌, ℕ, ◌+◌, ◌≤◌, length, drop};
ghost use Rattle.row_buffers.specs.HeldRows.{held_rows};
ghost use Rattle.row_buffers.specs.EntryLimits.{Capacity};
ghost use Rattle.entailments.specs.Forms.{EntailmentForm};
ghost use Rattle.entailments.specs.Meaning.{meaning_of};
ghost use Rattle.entailment_judge.specs.Buffers.{Premises, held};
ghost use Rattle.entailment_judge.specs.Judging.{judged_tree, judged_chosen};
ghost use Rattle.entailment_judge.specs.Answers.{leaf_of};
ghost use Rattle.entailment_judge.specs.TrueTargets.{target_place, TargetHere};

use crate::{Leaf, reader, sides};
use entailments::Entailment;

// A leaf, from the word behind its first on: a contradiction, or the target disjunct at a place.
pub(crate) fn judge_at(
    e: Entailment,
    words: &[i32],
    rows: &[i32],
    premises: &[i64],
    n: usize,
    w: &[i32],
    target: Option<usize>,
    next: usize,
) -> Option<Leaf>
    requires entailment_form { EntailmentForm words.now rows.now e }
    requires premises { Premises e.columns n premises.now }
    requires target_here { TargetHere rows.now e target }
    requires next_in_bounds { next ≤ length w.now }
    ensures { (j : ℕ) → j ≤ e.count → target ≡ target_place rows.now e j → result ≡ leaf_of w.now (judged_chosen (held (meaning_of words.now rows.now e) n premises.now) j (drop next w.now)) }
{
    let columns = e.columns;
    match target {
        Some(p) => crate::judge_rows(e, words, rows, p, premises, n, w, next),
        None => crate::judge_contradiction(premises, columns, n, w, next),
    }
}

// A leaf whose first word is j, from the word behind it on.
fn judge_leaf(
    e: Entailment,
    words: &[i32],
    rows: &[i32],
    premises: &[i64],
    n: usize,
    w: &[i32],
    j: usize,
    next: usize,
) -> Option<Leaf>
    requires entailment_form { EntailmentForm words.now rows.now e }
    requires premises { Premises e.columns n premises.now }
    requires j_le_count { (j ≤ e.count) × (next ≤ length w.now) }
    ensures { result ≡ leaf_of w.now (judged_chosen (held (meaning_of words.now rows.now e) n premises.now) j (drop next w.now)) }
{
    let target = crate::true_targets::named(e, rows, j);
    judge_at(e, words, rows, premises, n, w, target, next)
}

// The witness at `at`, where `depth` splits are left, for the premises that are the buffer's first n rows. A split puts its row behind them
// for its first witness, and the row's other side in the same place for its second. What the rows behind the first n hold afterwards is left
// open.
pub(crate) fn judge_tree(
    e: Entailment,
    words: &[i32],
    rows: &[i32],
    premises: &mut [i64],
    n: usize,
    w: &[i32],
    at: usize,
    depth: usize,
) -> Option<Leaf>
    requires entailment_form { EntailmentForm words.now rows.now e }
    requires premises { Premises e.columns n premises.old }
    requires capacity { Capacity e.columns (n + depth) (length premises.old) }
    requires at_in_bounds { at ≤ length w.now }
    ensures answer { result ≡ leaf_of w.now (judged_tree depth (held (meaning_of words.now rows.now e) n premises.old) (drop at w.now)) }
    ensures kept { held_rows e.columns n premises.new ≡ held_rows e.columns n premises.old }
{
    let count = e.count;
    let x = reader::word_in(w, at, 0, count);
    if let Some(word) = x {
        let next = word.at;
        return judge_leaf(e, words, rows, premises, n, w, word.number, next);
    }
    if !reader::splits(w, at) {
        return None;
    }
    if depth == 0 {
        return None;
    }
    let columns = e.columns;
    let row = at + 1;
    let first = reader::row_in(w, row, columns)?;
    let more = n + 1;
    let left = depth - 1;
    sides::push_side(w, row, columns, false, premises, n);
    let under = judge_tree(e, words, rows, premises, more, w, first, left)?;
    let second = under.next;
    sides::push_side(w, row, columns, true, premises, n);
    let over = judge_tree(e, words, rows, premises, more, w, second, left)?;
    let fits = under.fits & over.fits;
    let end = over.next;
    Some(Leaf { fits, next: end })
}
