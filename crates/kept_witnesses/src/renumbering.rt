// A witness's leaves given the numbers that their targets have among the kept ones, where its words stand: as many words, and only the first word of a
// leaf that names a target changes.
ghost use Rattle.std.specs.Prelude.{◌≡◌, ◌+◌, ◌≤◌, pos, length};
ghost use Rattle.words.specs.Words.{word};
ghost use Rattle.witness_walks.specs.Marks.{Walkable, targets_of};
ghost use Rattle.entailment_sources.specs.NewNumbers.{flagged};
ghost use Rattle.kept_witnesses.specs.SizedWitnesses.{Stands, RenumberedAt};

use entailment_sources::new_numbers::new_number;
use entailments::Entailment;

// A leaf for n premises whose first word, at `at`, is j: a contradiction, or the target disjunct that j names, which gets its new number. The place
// after it.
fn renumber_leaf(
    e: Entailment,
    rows: &[i32],
    flags: &[u8],
    n: usize,
    j: usize,
    words: &mut [i32],
    at: usize,
) -> usize
    requires walkable { Walkable rows.now e × (e.count ≤ length flags.now) }
    requires n_bound { n ≤ 1000 }
    requires at_value { word words.old at ≡ pos j }
    requires stands { Stands 0 e.columns n (targets_of rows.now e) words.old at }
    ensures { RenumberedAt (flagged flags.now) 0 e.columns n (targets_of rows.now e) words.old at result words.new }
{
    let next = at + 1;
    if j == 0 {
        return next + n;
    }
    let i = j - 1;
    let number = new_number(flags, i);
    let first = number + 1;
    words[at] = first as i32;
    let place = e.place;
    let width = e.width;
    let form = e.form;
    let p = certificate_readers::disjunct_place(rows, place, width, i, form);
    let m = certificate_readers::row_count(rows, p);
    next + m * (1 + n)
}

// The witness at `at`, where `depth` splits are left, for n premises: the numbers of its leaves become the new ones. The place after it.
pub(crate) fn renumber_tree(
    e: Entailment,
    rows: &[i32],
    flags: &[u8],
    n: usize,
    words: &mut [i32],
    at: usize,
    depth: usize,
) -> usize
    requires walkable { Walkable rows.now e × (e.count ≤ length flags.now) }
    requires depth_bound { n + depth ≤ 1000 }
    requires stands { Stands depth e.columns n (targets_of rows.now e) words.old at }
    ensures { RenumberedAt (flagged flags.now) depth e.columns n (targets_of rows.now e) words.old at result words.new }
{
    let first = reading::natural_at(words, at);
    match first {
        Some(j) => renumber_leaf(e, rows, flags, n, j, words, at),
        None => {
            let columns = e.columns;
            let row = at + 1;
            let begin = row + reading::row_words(columns);
            let more = n + 1;
            let left = depth - 1;
            let second = renumber_tree(e, rows, flags, more, words, begin, left);
            renumber_tree(e, rows, flags, more, words, second, left)
        }
    }
}
