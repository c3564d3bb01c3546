// The search for the first entailment that fails, over vertices, disjuncts and cases. The buffer of the premises is scratch: what it holds
// afterwards is left open.
ghost use Rattle.std.specs.Prelude.{◌≡◌, ◌+◌, ◌^◌, ◌≤◌, ◌<◌, length, drop};
ghost use Rattle.basics.specs.Lists.{gathered};
ghost use Rattle.programs.specs.Decode.{program as decoded};
ghost use Rattle.certificates.specs.CertificateWords.{disjunct_words, certificate};
ghost use Rattle.certificates.specs.Entailments.{from_vertex};
ghost use Rattle.certificates.specs.Judgement.{running, judge};
ghost use Rattle.program_readers.specs.Owners.{Owners};
ghost use Rattle.entailments.specs.Filled.{LongBuffer};
ghost use Rattle.vertex_entailments.specs.Given.{Given};
ghost use Rattle.judge.specs.CountSoFar.{count_so_far};
ghost use Rattle.judge.specs.Progress.{progress_at, InsideWords, held_in};

use answers::Reason;
use certificate_readers::disjunct_words;
use entailment_judge::judge_entailment;
use program_readers::places::{Sizes, Vertex};
use vertex_entailments::leaving::leaving_of;
use vertex_entailments::summaries::summary_places;
use vertex_entailments::{case_count, entailment_at};
use words::StoredForm;

const MOST_DISJUNCTS: usize = 8;

// Of a disjunct.
const MOST_ROWS: usize = 32;

// All held: the next unread word, and how many held.
#[derive(Clone, Copy)]
pub struct Through {
    pub at: usize,
    pub held: usize,
}

// The first that is refused: the reason, the first word of its witness, and how many held before it.
#[derive(Clone, Copy)]
pub struct Ended {
    pub reason: Reason,
    pub at: usize,
    pub held: usize,
}

// The place of the disjunct behind the one at `place`, where `left` are left, this one among them. Behind the last there is none, and its rows aren't gone
// over.
fn next_place(rows: &[i32], place: usize, columns: usize, left: usize, form: StoredForm) -> usize
    requires { (columns ≤ 64) × (place ≤ 2 ^ 32) }
    ensures { 1 < left → result ≡ place + disjunct_words form columns rows.now place }
{
    if left <= 1 {
        return place;
    }
    let size = disjunct_words(rows, columns, place, form);
    place + size
}

// The entailments of all vertices, from the word `from` on, after the start's, which held.
pub(crate) fn search(
    program: &[i32],
    sizes: Sizes,
    owners: &[usize],
    witness: &[i32],
    rows: &[i32],
    w: &[i32],
    from: usize,
    premises: &mut [i64],
) -> Result<Through, Ended>
    requires given { Given program.now witness.now sizes rows.now }
    requires owners { Owners program.now owners.now }
    requires from_in_bounds { from ≤ length w.now }
    requires long_buffer { LongBuffer premises.old }
    ensures result_value { progress_at w.now result ≡ judge (gathered (from_vertex (decoded program.now) (certificate program.now witness.now)) (sizes.statements + sizes.procedures)) (running (drop from w.now) 1) }
    ensures inside_words { InsideWords w.now result }
    ensures result_value_2 { held_in result ≡ count_so_far (gathered (from_vertex (decoded program.now) (certificate program.now witness.now)) (sizes.statements + sizes.procedures)) (running (drop from w.now) 1) 1 }
{
    let mut at = from;
    let mut held = 1;
    let mut out = Ok(Through { at, held });
    let vertices = sizes.statements + sizes.procedures;
    let entries = vertices + sizes.procedures;
    let form = certificate_readers::stored_form(witness);
    let mut places = [0usize; MOST_DISJUNCTS];
    let mut row_places = [0usize; MOST_ROWS];
    'search: for i in 0..vertices {
        let v = Vertex(i + 1);
        let leaving = leaving_of(program, sizes, owners, v);
        summary_places(sizes, witness, rows, leaving, &mut places);
        let entry = program_readers::places::path_entry(v);
        let disjuncts = certificate_readers::entry_count(witness, entry);
        let cases = case_count(sizes, witness, leaving);
        let mut place = certificate_readers::entry_place(witness, entries, entry);
        for d in 0..disjuncts {
            for case in 0..cases {
                let e = entailment_at(program, sizes, witness, rows, leaving, &places, place, case);
                let verdict = judge_entailment(e, program, rows, w, at, premises, &mut row_places);
                match verdict {
                    Ok(next) => {
                        at = next;
                        held = held + 1;
                        out = Ok(Through { at, held });
                    }
                    Err(reason) => {
                        out = Err(Ended { reason, at, held });
                        break 'search;
                    }
                }
            }
            let k = leaving.shape.k;
            let left = disjuncts - d;
            place = next_place(rows, place, k + k, left, form);
        }
    }
    out
}
