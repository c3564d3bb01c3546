// The entailments of a certificate, from the words: the start's, and those of a vertex's disjuncts by the kind of the vertex. What the vertex says
// is read once (`leaving`), and so are the places of a callee's summary (`summaries`); each entailment is made as a value (`values`), and how many
// a disjunct has depends on the vertex alone.
#![tactic(auto)]

pub mod leaving;
pub mod sides;
pub mod summaries;
pub mod targets;
pub mod values;

ghost use Rattle.std.specs.Prelude.{◌≡◌, List, ◌+◌, ◌≤◌, ◌<◌, ℤ, length, get_or};
ghost use Rattle.words.specs.Limits.{most_vertices};
ghost use Rattle.programs.specs.ProgramWords.{k};
ghost use Rattle.programs.specs.ProgramForm.{ProgramForm};
ghost use Rattle.programs.specs.Decode.{program as decoded};
ghost use Rattle.certificates.specs.Certificate.{Disjunct};
ghost use Rattle.certificates.specs.CertificateWords.{stored_form, row_count, certificate};
ghost use Rattle.certificates.specs.Entailments.{start_entailment};
ghost use Rattle.certificate_readers.specs.Disjuncts.{DisjunctHere};
ghost use Rattle.program_readers.specs.Sizes.{Header};
ghost use Rattle.vertex_entailments.specs.Leaving.{WayForm, Leaves};
ghost use Rattle.vertex_entailments.specs.Given.{Given, cases_of, disjunct_at, no_entailment, StandsFor};
ghost use Rattle.vertex_entailments.specs.Summaries.{SummariesAt};

use crate::leaving::{Leaving, Way};
use crate::sides::{side_at, sides_count};
use crate::values::{
    entry_entailment, exit_entailment, first_entailment, guard_entailment, path_entailment,
    return_entailment, shape_of, summary_added,
};
use entailments::{Added, Entailment, Image};
use program_readers::places::{Procedure, Sizes, Vertex};

// How many entailments each disjunct of a vertex has.
pub fn case_count(sizes: Sizes, witness: &[i32], leaving: Leaving) -> usize
    requires procedures_bound { sizes.statements + sizes.procedures ≤ most_vertices }
    requires way_form { WayForm leaving.way }
    ensures value { (program : List ℤ) (d : Disjunct) → Header program sizes → ProgramForm program → Leaves program sizes leaving → result ≡ length (cases_of program witness.now leaving.vertex.0 d) }
    ensures upper_bound { result ≤ 9 }
{
    let way = leaving.way;
    match way {
        Way::Skip(_) => 1,
        Way::Assign(_) => 1,
        Way::Branch(row) => sides_count(row.op),
        Way::Assert(row) => sides_count(row.op),
        Way::Call(row) => {
            let entry = program_readers::places::summary_entry(sizes, row.callee);
            1 + certificate_readers::entry_count(witness, entry)
        }
        Way::Exit { .. } => 1,
    }
}

// Entailment `case` of the disjunct at `place` of the row words. Where a call leaves, `summaries` has the places of the disjuncts of its callee's
// summary.
pub fn entailment_at(
    program: &[i32],
    sizes: Sizes,
    witness: &[i32],
    rows: &[i32],
    leaving: Leaving,
    summaries: &[usize],
    place: usize,
    case: usize,
) -> Entailment
    requires given { Given program.now witness.now sizes rows.now }
    requires leaves { Leaves program.now sizes leaving }
    requires summaries_at { SummariesAt witness.now sizes rows.now leaving summaries.now }
    requires disjunct_here { DisjunctHere (stored_form witness.now) (k program.now leaving.vertex.0 + k program.now leaving.vertex.0) rows.now (place + 1) (row_count rows.now place) }
    requires case_in_bounds { case < length (cases_of program.now witness.now leaving.vertex.0 (disjunct_at (stored_form witness.now) program.now rows.now leaving.vertex.0 (place + 1) (row_count rows.now place))) }
    ensures { StandsFor program.now rows.now result (get_or (cases_of program.now witness.now leaving.vertex.0 (disjunct_at (stored_form witness.now) program.now rows.now leaving.vertex.0 (place + 1) (row_count rows.now place))) case no_entailment) }
{
    let from = place + 1;
    let n = certificate_readers::row_count(rows, place);
    let shape = leaving.shape;
    let way = leaving.way;
    match way {
        Way::Skip(row) => {
            let added = Added::Nothing;
            path_entailment(sizes, witness, shape, from, n, added, Image::Path, row.next)
        }
        Way::Assign(row) => {
            let added = Added::Nothing;
            let image = Image::Assign(row.column, row.at);
            path_entailment(sizes, witness, shape, from, n, added, image, row.next)
        }
        Way::Branch(row) => {
            let side = side_at(row.yea, row.nay, row.op, case);
            guard_entailment(sizes, witness, shape, from, n, side, row.at)
        }
        Way::Assert(row) => {
            let side = side_at(row.next, Vertex(0), row.op, case);
            guard_entailment(sizes, witness, shape, from, n, side, row.at)
        }
        Way::Call(row) => {
            let at = row.at;
            if case == 0 {
                return entry_entailment(program, sizes, witness, shape, row.callee, at, from, n);
            }
            let added = summary_added(rows, summaries, at, case - 1);
            return_entailment(sizes, witness, shape, from, n, added, row.back)
        }
        Way::Exit { q } => exit_entailment(sizes, witness, shape, q, from, n),
    }
}

// The start's: all of main's columns are free.
pub fn start_entailment(program: &[i32], sizes: Sizes, witness: &[i32]) -> Entailment
    requires { Header program.now sizes × ProgramForm program.now }
    ensures { (rows : List ℤ) → Given program.now witness.now sizes rows → StandsFor program.now rows result (start_entailment (decoded program.now) (certificate program.now witness.now)) }
{
    let shape = shape_of(program, sizes, 0, Procedure(1));
    first_entailment(sizes, witness, shape)
}
