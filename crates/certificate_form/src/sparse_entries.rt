// Tests 5, 25 and 15 of a sparse entry, in one walk over its words.
ghost use Rattle.std.specs.Prelude.{◌≡◌, ◌^◌, ◌≤◌, length};
ghost use Rattle.words.specs.declared.StoredForm.TheVariants.{Sparse};
ghost use Rattle.words.specs.Limits.{most_words, most_disjuncts};
ghost use Rattle.words.specs.Tests.{first_failure};
ghost use Rattle.certificates.specs.CertificateWords.{count_of};
ghost use Rattle.answers.specs.Answers.{told};
ghost use Rattle.certificate_form.specs.DisjunctWalks.{disjuncts_walk};
ghost use Rattle.certificate_form.specs.EntryOrder.{entry_tests_of};
ghost use Rattle.certificate_form.specs.FreePlaces.{free_after};
ghost use Rattle.certificate_form.specs.Outcomes.{outcome};

use answers::{Reason, Refusal};
use certificate_readers::{entry_count, entry_place};
use reading::{number_at, word_within};
use sparse_rows::{Walked, rows_walked};

const MOST_WORDS: usize = 1000000;

const MOST_DISJUNCTS: usize = 8;

const MOST_ROWS: usize = 32;

// So many disjuncts from `at` on; none where one of them fails test 5.
fn disjuncts_walked(rows: &[i32], columns: usize, count: usize, at: usize) -> Option<Walked>
    requires columns_bound { columns ≤ 64 }
    requires count_le_most_disjuncts { count ≤ most_disjuncts }
    requires at_bound { (at ≤ 2 ^ 32) × (length rows.now ≤ most_words) }
    ensures { result ≡ disjuncts_walk rows.now columns count at }
{
    let mut strict = true;
    let mut filled = true;
    let mut place = at;
    for i in 0..count {
        let starts = place < rows.len();
        let counted = word_within(rows, place, 0, MOST_ROWS);
        if !(starts & counted) {
            return None;
        }
        let n = number_at(rows, place, MOST_ROWS);
        let walked = rows_walked(rows, place + 1, columns, n)?;
        strict = strict & walked.strict;
        filled = filled & walked.filled;
        place = walked.end;
    }
    Some(Walked {
        strict,
        filled,
        end: place,
    })
}

// Tests 5, 25 and 15 of an entry, up to the first that fails; or the next free place behind it, where `free` is the one before it.
pub fn sparse_tested(
    rows: &[i32],
    witness: &[i32],
    entries: usize,
    columns: usize,
    free: usize,
    i: usize,
) -> Result<usize, Refusal>
    requires entries_bound { (entries ≤ 2 ^ 32) × (i ≤ 2 ^ 32) }
    requires columns_bound { columns ≤ 64 }
    requires free_le_most_words { (free ≤ most_words) × (length rows.now ≤ most_words) }
    ensures { told result ≡ outcome (first_failure (entry_tests_of rows.now witness.now entries columns i Sparse free)) (free_after Sparse rows.now columns (count_of witness.now i) free) }
{
    let at = 2 + i;
    let counted = word_within(witness, at, 0, MOST_DISJUNCTS);
    let placed = word_within(witness, 2 + entries + i, 0, MOST_WORDS);
    let count = entry_count(witness, i);
    let place = entry_place(witness, entries, i);
    let walked = disjuncts_walked(rows, columns, count, place).ok_or(Refusal::at(
        Reason::Entry,
        at,
    ))?;
    if !(counted & ((count == 0) | placed)) {
        return Err(Refusal::at(Reason::Entry, at));
    }
    let here = word_within(witness, 2 + entries + i, free, free);
    if !(here & walked.strict) {
        return Err(Refusal::at(Reason::SparseRow, at));
    }
    if !walked.filled {
        return Err(Refusal::at(Reason::ConstantRow, at));
    }
    Ok(walked.end)
}
