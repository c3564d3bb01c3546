// The words of a certificate, read: which form they are stored in, how many disjuncts an entry has and where they begin, how many rows a disjunct has and where the next one
// begins. Every look-up is total, so what a function promises holds for all words. The functions are public for the crates above.
#![tactic(auto)]

ghost use Rattle.std.specs.Prelude.{◌≡◌, ◌^◌, ◌≤◌};
ghost use Rattle.words.specs.Limits.{most_words, most_disjuncts};
ghost use Rattle.words.specs.declared.StoredForm.TheVariants.{Dense, Sparse};
ghost use Rattle.certificates.specs.CertificateWords.{stored_form, row_count, disjunct_words, disjuncts_end, count_of, place_of, start_of};
ghost use Rattle.certificates.specs.CertificateForm.{DisjunctsForm};

use reading::number_at;
use words::StoredForm;

const MOST_WORDS: usize = 1000000;

const MOST_DISJUNCTS: usize = 8;

const MOST_ROWS: usize = 32;

const SPARSE_MARK: usize = 4;

// The form that the words are stored in, by their kind.
pub fn stored_form(witness: &[i32]) -> StoredForm
    ensures { result ≡ stored_form witness.now }
{
    let sparse = reading::word_within(witness, 0, SPARSE_MARK, SPARSE_MARK);
    if sparse {
        return StoredForm::Sparse;
    }
    StoredForm::Dense
}

// Where the row words begin.
pub fn rows_start(entries: usize) -> usize
    requires { entries ≤ 2 ^ 32 }
    ensures { result ≡ start_of entries }
{
    3 + entries + entries
}

// How many disjuncts an entry has.
pub fn entry_count(witness: &[i32], i: usize) -> usize
    requires { i ≤ 2 ^ 32 }
    ensures value { result ≡ count_of witness.now i }
    ensures upper_bound { result ≤ most_disjuncts }
{
    number_at(witness, 2 + i, MOST_DISJUNCTS)
}

// Where an entry's disjuncts begin in the row words.
pub fn entry_place(witness: &[i32], entries: usize, i: usize) -> usize
    requires entries_bound { entries ≤ 2 ^ 32 }
    requires i_bound { i ≤ 2 ^ 32 }
    ensures value { result ≡ place_of witness.now entries i }
    ensures upper_bound { result ≤ most_words }
{
    number_at(witness, 2 + entries + i, MOST_WORDS)
}

// The row count of the disjunct at a place.
pub fn row_count(rows: &[i32], place: usize) -> usize
    ensures { result ≡ row_count rows.now place }
{
    number_at(rows, place, MOST_ROWS)
}

// How many words the disjunct at `at` takes, in its form: one, and at most 32 rows of 131.
pub fn disjunct_words(rows: &[i32], columns: usize, at: usize, form: StoredForm) -> usize
    requires columns_bound { columns ≤ 64 }
    requires at_bound { at ≤ 2 ^ 41 }
    ensures value { result ≡ disjunct_words form columns rows.now at }
    ensures upper_bound { result ≤ 4193 }
{
    let count = number_at(rows, at, MOST_ROWS);
    1 + sparse_rows::rows_take(rows, at + 1, columns, count, form)
}

// The place of dense disjunct j, from 0, of the disjuncts of m columns at `place`.
fn dense_place(rows: &[i32], place: usize, m: usize, j: usize) -> usize
    requires m_bound { m ≤ 64 }
    requires j_le_most_disjuncts { j ≤ most_disjuncts }
    requires place_bound { place ≤ 2 ^ 32 }
    ensures { result ≡ disjuncts_end Dense rows.now m j place }
{
    let mut p = place;
    for i in 0..j {
        let size = disjunct_words(rows, m, p, StoredForm::Dense);
        p = p + size;
    }
    p
}

// That of a sparse one, where those before it have passed test 5.
fn sparse_place(rows: &[i32], place: usize, m: usize, j: usize) -> usize
    requires { DisjunctsForm Sparse rows.now m j place }
    ensures { result ≡ disjuncts_end Sparse rows.now m j place }
{
    let mut at = place;
    for i in 0..j {
        let count = row_count(rows, at);
        let size = sparse_rows::words_inside(rows, at + 1, m, count);
        at = at + 1 + size;
    }
    at
}

// The place of disjunct j, from 0, of the disjuncts of m columns at `place`, where those before it have passed test 5.
pub fn disjunct_place(rows: &[i32], place: usize, m: usize, j: usize, form: StoredForm) -> usize
    requires m_bound { m ≤ 64 }
    requires j_le_most_disjuncts { j ≤ most_disjuncts }
    requires place_bound { place ≤ 2 ^ 32 }
    requires disjuncts_form { DisjunctsForm form rows.now m j place }
    ensures { result ≡ disjuncts_end form rows.now m j place }
{
    match form {
        StoredForm::Dense => dense_place(rows, place, m, j),
        StoredForm::Sparse => sparse_place(rows, place, m, j),
    }
}
