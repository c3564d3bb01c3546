// Where the disjuncts of a callee's summary stand, worked out once for all disjuncts of a call, into a table.
ghost use Rattle.std.specs.Prelude.{◌≡◌, ◌+◌, ◌≤◌, length};
ghost use Rattle.words.specs.Limits.{most_vertices, most_procedures, most_words, most_disjuncts};
ghost use Rattle.certificates.specs.CertificateForm.{DisjunctsForm};
ghost use Rattle.entailments.specs.Forms.{ShapeForm};
ghost use Rattle.vertex_entailments.specs.Leaving.{WayForm};
ghost use Rattle.vertex_entailments.specs.Summaries.{SummaryFormed, FormedBy, PlacesAt, SummaryAt, SummariesAt};

use crate::leaving::{Leaving, Way};
use crate::targets::summary_target;
use entailments::Shape;
use program_readers::places::{Procedure, Sizes};
use words::StoredForm;

// The places of `count` disjuncts of m columns from `place` on, which have passed test 5. What the entries behind theirs hold is left open.
fn disjunct_places(
    rows: &[i32],
    place: usize,
    m: usize,
    count: usize,
    form: StoredForm,
    places: &mut [usize],
)
    requires m_bound { m ≤ 64 }
    requires count_le_most_disjuncts { count ≤ most_disjuncts }
    requires disjuncts_form { DisjunctsForm form rows.now m count place × (length rows.now ≤ most_words) }
    requires most_disjuncts_in_bounds { most_disjuncts ≤ length places.old }
    ensures places_at { PlacesAt form rows.now m count place places.new }
    ensures places_len_unchanged { length places.new ≡ length places.old }
{
    let mut at = place;
    places[0] = at;
    for j in 1..count {
        at = certificate_readers::disjunct_place(rows, at, m, 1, form);
        places[j] = at;
    }
}

// Those of the callee's summary.
fn callee_places(
    sizes: Sizes,
    witness: &[i32],
    rows: &[i32],
    shape: Shape,
    callee: Procedure,
    places: &mut [usize],
)
    requires procedures_bound { (sizes.statements + sizes.procedures ≤ most_vertices) × (callee.0 ≤ most_procedures) }
    requires shape_form { ShapeForm shape }
    requires summary_formed { SummaryFormed witness.now sizes rows.now shape callee.0 × (length rows.now ≤ most_words) }
    requires most_disjuncts_in_bounds { most_disjuncts ≤ length places.old }
    ensures summary_at { SummaryAt witness.now sizes rows.now shape callee.0 places.new }
    ensures places_len_unchanged { length places.new ≡ length places.old }
{
    let target = summary_target(sizes, witness, callee);
    let form = target.form;
    let columns = shape.globals + shape.parameters + shape.globals;
    disjunct_places(rows, target.place, columns, target.count, form, places);
}

// Where a call leaves, the table for its callee. What it holds where another statement or an exit leaves is open.
pub fn summary_places(
    sizes: Sizes,
    witness: &[i32],
    rows: &[i32],
    leaving: Leaving,
    places: &mut [usize],
)
    requires procedures_bound { sizes.statements + sizes.procedures ≤ most_vertices }
    requires way_form { WayForm leaving.way }
    requires shape_form { ShapeForm leaving.shape }
    requires formed_by { FormedBy witness.now sizes rows.now leaving.shape leaving.way × (length rows.now ≤ most_words) }
    requires most_disjuncts_in_bounds { most_disjuncts ≤ length places.old }
    ensures summaries_at { SummariesAt witness.now sizes rows.now leaving places.new }
    ensures places_len_unchanged { length places.new ≡ length places.old }
{
    let shape = leaving.shape;
    let way = leaving.way;
    match way {
        Way::Skip(_) => {}
        Way::Assign(_) => {}
        Way::Branch(_) => {}
        Way::Assert(_) => {}
        Way::Call(row) => {
            callee_places(sizes, witness, rows, shape, row.callee, places);
        }
        Way::Exit { .. } => {}
    }
}
