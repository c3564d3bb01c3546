// The target disjunct that a witness names, and whether it has rows. A witness that names one without rows is one word, and it fits whatever the
// premises and the image are.
ghost use Rattle.std.specs.Prelude.{◌≡◌, ◌≤◌};
ghost use Rattle.words.specs.Limits.{most_words, most_disjuncts};
ghost use Rattle.certificates.specs.CertificateForm.{DisjunctsForm};
ghost use Rattle.entailments.specs.ImageSizes.{most_image};
ghost use Rattle.entailment_judge.specs.TrueTargets.{target_place, is_true};

use entailments::Entailment;

// The place of the target disjunct that the number j of a witness's first word names; 0 names none.
pub(crate) fn named(e: Entailment, rows: &[i32], j: usize) -> Option<usize>
    requires disjuncts_form { DisjunctsForm e.form rows.now e.width e.count e.place }
    requires width_le_most_image { (e.width ≤ most_image) × (e.place ≤ most_words) }
    requires j_le_count { (j ≤ e.count) × (e.count ≤ most_disjuncts) }
    ensures { result ≡ target_place rows.now e j }
{
    if j == 0 {
        return None;
    }
    let place = e.place;
    let width = e.width;
    let form = e.form;
    Some(certificate_readers::disjunct_place(rows, place, width, j - 1, form))
}

// There is a disjunct at the place, and it has no rows.
pub(crate) fn is_true(rows: &[i32], target: Option<usize>) -> bool
    ensures { result ≡ is_true rows.now target }
{
    match target {
        Some(p) => certificate_readers::row_count(rows, p) == 0,
        None => false,
    }
}
