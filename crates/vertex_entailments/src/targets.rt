// Where the disjuncts of an entailment's target stand in the row words, how many there are, and which form their rows are stored in.
ghost use Rattle.std.specs.Prelude.{◌≡◌, ◌+◌, ◌≤◌};
ghost use Rattle.words.specs.Limits.{most_vertices, most_procedures};
ghost use Rattle.vertex_entailments.specs.Targets.{entry_target, path_target, summary_target};

use program_readers::places::{Procedure, Sizes, Vertex};
use words::StoredForm;

#[derive(Drop)]
pub struct Target {
    pub place: usize,
    pub count: usize,
    pub form: StoredForm,
}

// The disjuncts of an entry of the certificate.
fn entry_target(sizes: Sizes, witness: &[i32], entry: usize) -> Target
    requires procedures_bound { sizes.statements + sizes.procedures ≤ most_vertices }
    requires bound { entry ≤ most_vertices + most_procedures }
    ensures { result ≡ entry_target sizes witness.now entry }
{
    let entries = sizes.statements + sizes.procedures + sizes.procedures;
    let form = certificate_readers::stored_form(witness);
    Target {
        place: certificate_readers::entry_place(witness, entries, entry),
        count: certificate_readers::entry_count(witness, entry),
        form,
    }
}

// The path edges of a vertex. Vertex 0, a failed assertion, has none.
pub(crate) fn path_target(sizes: Sizes, witness: &[i32], v: Vertex) -> Target
    requires procedures_bound { sizes.statements + sizes.procedures ≤ most_vertices }
    requires v_le_most_vertices { v.0 ≤ most_vertices }
    ensures { result ≡ path_target sizes witness.now v.0 }
{
    let target = entry_target(sizes, witness, program_readers::places::path_entry(v));
    if v.0 == 0 {
        let form = target.form;
        return Target {
            place: target.place,
            count: 0,
            form,
        };
    }
    target
}

// The summary edges of a procedure.
pub(crate) fn summary_target(sizes: Sizes, witness: &[i32], q: Procedure) -> Target
    requires procedures_bound { sizes.statements + sizes.procedures ≤ most_vertices }
    requires q_le_most_procedures { q.0 ≤ most_procedures }
    ensures { result ≡ summary_target sizes witness.now q.0 }
{
    entry_target(
        sizes,
        witness,
        program_readers::places::summary_entry(sizes, q),
    )
}
