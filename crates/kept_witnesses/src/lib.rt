// The witnesses of the entailments whose sources are kept, written with the numbers that their targets have among the kept ones.
#![tactic(auto)]

mod renumbering;

ghost use Rattle.std.specs.Prelude.{◌≡◌, ◌+◌, ◌≤◌, ◌<◌, ◌^◌, length, drop};
ghost use Rattle.std.proofs.lemmas.List.Edits.{sets};
ghost use Rattle.certificates.specs.CertificateWords.{witness_words};
ghost use Rattle.checker.specs.ListedWitnesses.{AllListed};
ghost use Rattle.program_readers.specs.Owners.{Owners};
ghost use Rattle.vertex_entailments.specs.Given.{Given};
ghost use Rattle.entailment_sources.specs.KeptBytes.{most_entries, most_bytes};
ghost use Rattle.witness_walks.specs.Marks.{Walkable};
ghost use Rattle.witness_walks.specs.Witnessed.{walked_from};
ghost use Rattle.entailment_sources.specs.NewNumbers.{flagged};
ghost use Rattle.kept_witnesses.specs.KeptWords.{Spells, RenumberedInto, first_byte, WrittenBy};
ghost use Rattle.kept_witnesses.specs.PassLaws.{words_left, WrittenSoFar};
ghost use Rattle.kept_witnesses.specs.PassSteps.{entailments_before};

use crate::renumbering::renumber_tree;
use certificate_readers::disjunct_words;
use entailment_sources::{leads_to, sources_kept};
use entailments::Entailment;
use layout_writers::copy_words;
use program_readers::places::{Sizes, Vertex};
use vertex_entailments::leaving::leaving_of;
use vertex_entailments::summaries::summary_places;
use vertex_entailments::{case_count, entailment_at, start_entailment};
use witness_walks::{mark_witness, premise_count};

const MOST_SPLITS: usize = 8;

const MOST_DISJUNCTS: usize = 8;

// The place after the witness at `at`.
fn witness_end(e: Entailment, rows: &[i32], w: &[i32], at: usize) -> usize
    requires walkable { Walkable rows.now e }
    requires at_in_bounds { at ≤ length w.now }
    ensures w_value { drop result w.now ≡ (walked_from rows.now e (drop at w.now)).left }
    ensures upper_bound { result ≤ length w.now }
{
    let mut named = [0u8; MOST_DISJUNCTS];
    mark_witness(e, rows, w, at, &mut named)
}

// The words of a witness, with the new numbers of its leaves, into the buffer from `to` on.
fn write_renumbered(
    e: Entailment,
    rows: &[i32],
    flags: &[u8],
    words: &[i32],
    buffer: &mut [i32],
    to: usize,
)
    requires walkable { Walkable rows.now e × (e.count ≤ length flags.now) }
    requires spells { Spells rows.now e words.now }
    requires words_in_bounds { to + length words.now ≤ length buffer.old }
    ensures { RenumberedInto rows.now e (flagged flags.now) words.now buffer.old to buffer.new }
{
    let size = words.len();
    copy_words(words, 0, size, buffer, to);
    let n = premise_count(e);
    renumber_tree(e, rows, flags, n, buffer, to, MOST_SPLITS);
}

// The first byte of the targets of an entailment that leads to an entry: any, where it has no targets.
fn first_byte(e: Entailment, entry: usize) -> usize
    requires { 1 ≤ e.count → (1 ≤ entry) × (entry ≤ most_entries) }
    ensures value { result ≡ first_byte e.count entry }
    ensures result_bound { result + 8 ≤ most_bytes }
{
    if e.count == 0 {
        return 0;
    }
    (entry - 1) * MOST_DISJUNCTS
}

// The words of the witness of an entailment that leads to an entry, where its sources are kept: how many they are, and, where they fit, into the
// buffer from `to` on.
fn write_witness(
    e: Entailment,
    rows: &[i32],
    kept: &[u8],
    entry: usize,
    keep: bool,
    words: &[i32],
    buffer: &mut [i32],
    to: usize,
) -> usize
    requires walkable { Walkable rows.now e × (length kept.now ≡ most_bytes) }
    requires le { 1 ≤ e.count → (1 ≤ entry) × (entry ≤ most_entries) }
    requires spells { Spells rows.now e words.now }
    requires words_bound { to + length words.now < 2 ^ 64 }
    ensures { WrittenBy rows.now e keep (flagged (drop (first_byte e.count entry) kept.now)) words.now buffer.old to result buffer.new }
{
    if !keep {
        return 0;
    }
    let size = words.len();
    if buffer.len() < to + size {
        return size;
    }
    let first = first_byte(e, entry);
    write_renumbered(e, rows, &kept[first..], words, buffer, to);
    size
}

// The start's witness, whose words are always kept: how many they are, in the buffer where they fit.
fn write_start(
    program: &[i32],
    sizes: Sizes,
    witness: &[i32],
    rows: &[i32],
    w: &[i32],
    kept: &[u8],
    buffer: &mut [i32],
) -> usize
    requires given { Given program.now witness.now sizes rows.now }
    requires all_listed { AllListed program.now witness.now × (w.now ≡ witness_words program.now witness.now) }
    requires kept_len { length kept.now ≡ most_bytes }
    ensures { WrittenSoFar program.now witness.now sizes kept.now buffer.old (entailments_before program.now witness.now 1 0 0) result result buffer.new }
{
    let e = start_entailment(program, sizes, witness);
    let end = witness_end(e, rows, w, 0);
    write_witness(e, rows, kept, 1, true, &w[0..end], buffer, 0)
}

// The witnesses of all entailments whose sources are kept, one after the other: how many words they are, and, where they fit, at the front of the
// buffer. The certificate was accepted, and w are its witness words.
pub fn write_witnesses(
    program: &[i32],
    sizes: Sizes,
    owners: &[usize],
    witness: &[i32],
    rows: &[i32],
    w: &[i32],
    kept: &[u8],
    buffer: &mut [i32],
) -> usize
    requires given { Given program.now witness.now sizes rows.now }
    requires owners { Owners program.now owners.now }
    requires all_listed { AllListed program.now witness.now × (w.now ≡ witness_words program.now witness.now) }
    requires kept_len { length kept.now ≡ most_bytes }
    ensures value { result ≡ length (words_left program.now witness.now sizes kept.now) }
    ensures upper_bound { result ≤ length w.now }
    ensures buffer_after { result ≤ length buffer.old → buffer.new ≡ sets buffer.old 0 (words_left program.now witness.now sizes kept.now) }
{
    let start = write_start(program, sizes, witness, rows, w, kept, buffer);
    let mut at = start;
    let mut to = start;
    let vertices = sizes.statements + sizes.procedures;
    let entries = vertices + sizes.procedures;
    let form = certificate_readers::stored_form(witness);
    let mut places = [0usize; MOST_DISJUNCTS];
    for i in 0..vertices {
        let v = Vertex(i + 1);
        let leaving = leaving_of(program, sizes, owners, v);
        summary_places(sizes, witness, rows, leaving, &mut places);
        let entry = program_readers::places::path_entry(v);
        let disjuncts = certificate_readers::entry_count(witness, entry);
        let cases = case_count(sizes, witness, leaving);
        let mut place = certificate_readers::entry_place(witness, entries, entry);
        for d in 0..disjuncts {
            for case in 0..cases {
                let e = entailment_at(program, sizes, witness, rows, leaving, &places, place, case);
                let end = witness_end(e, rows, w, at);
                let target = leads_to(program, sizes, leaving, case);
                let keep = sources_kept(sizes, leaving, d, case, kept);
                let size = write_witness(e, rows, kept, target, keep, &w[at..end], buffer, to);
                at = end;
                to = to + size;
            }
            let k = leaving.shape.k;
            let size = disjunct_words(rows, k + k, place, form);
            place = place + size;
        }
    }
    to
}

// How many words they are.
pub fn witnesses_size(
    program: &[i32],
    sizes: Sizes,
    owners: &[usize],
    witness: &[i32],
    rows: &[i32],
    w: &[i32],
    kept: &[u8],
) -> usize
    requires given { Given program.now witness.now sizes rows.now }
    requires owners { Owners program.now owners.now }
    requires all_listed { AllListed program.now witness.now × (w.now ≡ witness_words program.now witness.now) }
    requires kept_len { length kept.now ≡ most_bytes }
    ensures value { result ≡ length (words_left program.now witness.now sizes kept.now) }
    ensures upper_bound { result ≤ length w.now }
{
    let mut none = [0i32; 0];
    write_witnesses(program, sizes, owners, witness, rows, w, kept, &mut none)
}
