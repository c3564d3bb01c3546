// The targets that each entailment's witness names, as a table of bytes, from a certificate that was accepted. One pass over all entailments in their
// order, each witness walked where it stands.
#![tactic(auto)]

ghost use Rattle.std.specs.Prelude.{◌≡◌, ◌≤◌, length};
ghost use Rattle.certificates.specs.CertificateWords.{witness_words};
ghost use Rattle.checker.specs.ListedWitnesses.{AllListed};
ghost use Rattle.program_readers.specs.Owners.{Owners};
ghost use Rattle.vertex_entailments.specs.Given.{Given};
ghost use Rattle.witness_walks.specs.Marks.{Walkable};
ghost use Rattle.used_targets.specs.UseTable.{table_size, Tabled};
ghost use Rattle.used_targets.specs.Packed.{packed_of, Flagged};
ghost use Rattle.used_targets.specs.Passes.{UsedAt};

use certificate_readers::disjunct_words;
use entailments::Entailment;
use program_readers::places::{Sizes, Vertex};
use vertex_entailments::leaving::leaving_of;
use vertex_entailments::summaries::summary_places;
use vertex_entailments::{case_count, entailment_at, start_entailment};
use witness_walks::mark_witness;

const MOST_DISJUNCTS: usize = 8;

const MOST_CASES: usize = 9;

// The place of the next witness, and the byte of the one before it.
#[derive(Drop)]
pub struct Used {
    pub next: usize,
    pub byte: u8,
}

// 8 flags as the bits of a byte, the first the lowest.
fn packed(flags: &[u8]) -> u8
    requires { (length flags.now ≡ 8) × Flagged flags.now }
    ensures { result ≡ packed_of flags.now }
{
    let mut byte = 0;
    for i in 0..MOST_DISJUNCTS {
        let j = 7 - i;
        byte = byte + byte + flags[j];
    }
    byte
}

// The witness of an entailment at `at`.
fn use_at(e: Entailment, rows: &[i32], w: &[i32], at: usize) -> Used
    requires walkable { Walkable rows.now e }
    requires at_in_bounds { at ≤ length w.now }
    ensures { UsedAt w.now rows.now e at result }
{
    let mut named = [0u8; MOST_DISJUNCTS];
    let next = mark_witness(e, rows, w, at, &mut named);
    let byte = packed(&named);
    Used { next, byte }
}

// The bytes of all entailments but the start's into the table, each into its slot; the start's is the result. What the other slots hold is left
// open.
pub fn table_uses(
    program: &[i32],
    sizes: Sizes,
    owners: &[usize],
    witness: &[i32],
    rows: &[i32],
    w: &[i32],
    table: &mut [u8],
) -> u8
    requires given { Given program.now witness.now sizes rows.now }
    requires owners { Owners program.now owners.now }
    requires all_listed { AllListed program.now witness.now × (w.now ≡ witness_words program.now witness.now) }
    requires table_size_in_bounds { table_size ≤ length table.old }
    ensures tabled { Tabled program.now witness.now table.new result }
    ensures table_len_unchanged { length table.new ≡ length table.old }
{
    let first = use_at(start_entailment(program, sizes, witness), rows, w, 0);
    let start = first.byte;
    let mut at = first.next;
    let vertices = sizes.statements + sizes.procedures;
    let entries = vertices + sizes.procedures;
    let form = certificate_readers::stored_form(witness);
    let mut places = [0usize; MOST_DISJUNCTS];
    for i in 0..vertices {
        let v = Vertex(i + 1);
        let leaving = leaving_of(program, sizes, owners, v);
        summary_places(sizes, witness, rows, leaving, &mut places);
        let entry = program_readers::places::path_entry(v);
        let disjuncts = certificate_readers::entry_count(witness, entry);
        let cases = case_count(sizes, witness, leaving);
        let mut place = certificate_readers::entry_place(witness, entries, entry);
        for d in 0..disjuncts {
            for case in 0..cases {
                let e = entailment_at(program, sizes, witness, rows, leaving, &places, place, case);
                let used = use_at(e, rows, w, at);
                let slot = (i * MOST_DISJUNCTS + d) * MOST_CASES + case;
                table[slot] = used.byte;
                at = used.next;
            }
            let k = leaving.shape.k;
            let size = disjunct_words(rows, k + k, place, form);
            place = place + size;
        }
    }
    start
}
