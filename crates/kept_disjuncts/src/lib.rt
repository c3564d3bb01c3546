// The disjuncts that are used of an accepted certificate, the least set, found by a queue: those found kept are put in it, and each is taken in turn.
#![tactic(auto)]

ghost use Rattle.std.specs.Prelude.{◌≡◌, ℕ, ◌+◌, ◌≤◌, ◌<◌, T, length, get_or};
ghost use Rattle.words.specs.Limits.{most_vertices, most_disjuncts};
ghost use Rattle.programs.specs.ProgramForm.{ProgramForm};
ghost use Rattle.certificates.specs.CertificateForm.{CertificateForm};
ghost use Rattle.trimming.specs.Kept.{Exactly};
ghost use Rattle.checker.specs.ListedWitnesses.{AllListed};
ghost use Rattle.trimmed_words.specs.Trim.{listed_uses};
ghost use Rattle.program_readers.specs.Sizes.{Header};
ghost use Rattle.program_readers.specs.Owners.{Owners};
ghost use Rattle.vertex_entailments.specs.Leaving.{Leaves};
ghost use Rattle.entailment_sources.specs.KeptBytes.{most_entries, most_bytes, flags_in};
ghost use Rattle.used_targets.specs.UseTable.{names, most_cases, table_size, slot_of, Tabled};
ghost use Rattle.kept_disjuncts.specs.Queue.{Queued, Filled, Only, LastNamed, Named, NamesPlaces};
ghost use Rattle.kept_disjuncts.specs.Standing.{Standing, Grown, Known, CaseDone, ReturnDone, calls_of};
ghost use Rattle.kept_disjuncts.specs.TakenUses.{TakenAt};

use program_readers::places::{Procedure, Sizes, Vertex};
use vertex_entailments::leaving::{Leaving, Way};

const MOST_DISJUNCTS: usize = 8;

const MOST_CASES: usize = 9;

// A byte for each disjunct that the 1,088 entries may have.
const MOST_BYTES: usize = 8704;

// The byte at a place becomes 1, and the place is put in the queue; nothing if it is 1. Answers how many are in the queue.
fn keep_one(place: usize, kept: &mut [u8], queue: &mut [usize], count: usize) -> usize
    requires place_lt_most_bytes { place < most_bytes }
    requires queued { Queued kept.old queue.old count }
    ensures { Filled (Only place) kept.old queue.old count kept.new queue.new result }
{
    if kept[place] == 1 {
        return count;
    }
    kept[place] = 1;
    queue[count] = place;
    count + 1
}

// Target j of an entry, if the last bit of `rest` is 1.
fn keep_target(
    rest: u8,
    entry: usize,
    j: usize,
    kept: &mut [u8],
    queue: &mut [usize],
    count: usize,
) -> usize
    requires le { T (names rest 0) → (1 ≤ entry) × (entry ≤ most_entries) × (j < most_disjuncts) }
    requires queued { Queued kept.old queue.old count }
    ensures { Filled (LastNamed rest entry j) kept.old queue.old count kept.new queue.new result }
{
    if rest % 2 == 1 {
        let place = entailment_sources::byte_of(entry, j);
        return keep_one(place, kept, queue, count);
    }
    count
}

// The targets of an entry that a byte names.
fn keep_targets(byte: u8, entry: usize, kept: &mut [u8], queue: &mut [usize], count: usize) -> usize
    requires names_places { NamesPlaces byte entry }
    requires queued { Queued kept.old queue.old count }
    ensures { Filled (Named byte entry) kept.old queue.old count kept.new queue.new result }
{
    let mut rest = byte;
    let mut held = count;
    for j in 0..MOST_DISJUNCTS {
        held = keep_target(rest, entry, j, kept, queue, held);
        rest = rest / 2;
    }
    held
}

// The place of entailment `case` of disjunct i of a vertex in the table.
fn slot_of(vertex: Vertex, i: usize, case: usize) -> usize
    requires le_vertex { (1 ≤ vertex.0) × (vertex.0 ≤ most_vertices) }
    requires i_lt_most_disjuncts { (i < most_disjuncts) × (case < most_cases) }
    ensures value { result ≡ slot_of vertex.0 i case }
    ensures upper_bound { result < table_size }
{
    let entry = program_readers::places::path_entry(vertex);
    entailment_sources::byte_of(entry, i) * MOST_CASES + case
}

// Looks at entailment `case` of disjunct i of a vertex, if there is one: where its sources are kept, the targets that its witness names are.
fn keep_case(
    program: &[i32],
    sizes: Sizes,
    witness: &[i32],
    leaving: Leaving,
    i: usize,
    case: usize,
    table: &[u8],
    kept: &mut [u8],
    queue: &mut [usize],
    count: usize,
) -> usize
    requires known { Known program.now witness.now sizes table.now }
    requires leaves { Leaves program.now sizes leaving }
    requires i_lt_most_disjuncts { (i < most_disjuncts) × (case < most_cases) }
    requires standing { Standing (listed_uses program.now witness.now) sizes kept.old queue.old count }
    ensures grown { Grown (listed_uses program.now witness.now) sizes kept.old queue.old count kept.new queue.new result }
    ensures case_done { CaseDone program.now witness.now sizes table.now kept.old kept.new leaving.vertex.0 i case }
{
    let cases = vertex_entailments::case_count(sizes, witness, leaving);
    if cases <= case {
        return count;
    }
    if !entailment_sources::sources_kept(sizes, leaving, i, case, kept) {
        return count;
    }
    let entry = entailment_sources::leads_to(program, sizes, leaving, case);
    let slot = slot_of(leaving.vertex, i, case);
    keep_targets(table[slot], entry, kept, queue, count)
}

// Takes disjunct i of a vertex: its entailments are looked at.
fn take_path(
    program: &[i32],
    sizes: Sizes,
    owners: &[usize],
    witness: &[i32],
    vertex: Vertex,
    i: usize,
    table: &[u8],
    kept: &mut [u8],
    queue: &mut [usize],
    count: usize,
) -> usize
    requires known { Known program.now witness.now sizes table.now }
    requires owners { Owners program.now owners.now }
    requires le_vertex { (1 ≤ vertex.0) × (vertex.0 ≤ sizes.statements + sizes.procedures) }
    requires i_lt_most_disjuncts { i < most_disjuncts }
    requires standing { Standing (listed_uses program.now witness.now) sizes kept.old queue.old count }
    ensures grown { Grown (listed_uses program.now witness.now) sizes kept.old queue.old count kept.new queue.new result }
    ensures by_index { (case : ℕ) → CaseDone program.now witness.now sizes table.now kept.old kept.new vertex.0 i case }
{
    let leaving = vertex_entailments::leaving::leaving_of(program, sizes, owners, vertex);
    let mut held = count;
    for case in 0..MOST_CASES {
        held = keep_case(
            program, sizes, witness, leaving, i, case, table, kept, queue, held,
        );
    }
    held
}

// The vertex is a call of procedure q.
fn calls(leaving: Leaving, q: Procedure) -> bool
    ensures { result ≡ calls_of leaving.way q.0 }
{
    let way = leaving.way;
    match way {
        Way::Skip(_) => false,
        Way::Assign(_) => false,
        Way::Branch(_) => false,
        Way::Assert(_) => false,
        Way::Call(row) => row.callee.0 == q.0,
        Way::Exit { .. } => false,
    }
}

// Looks at entailment `case` of each disjunct of a vertex, if it is a call of procedure q.
fn take_returns(
    program: &[i32],
    sizes: Sizes,
    witness: &[i32],
    leaving: Leaving,
    q: Procedure,
    case: usize,
    table: &[u8],
    kept: &mut [u8],
    queue: &mut [usize],
    count: usize,
) -> usize
    requires known { Known program.now witness.now sizes table.now }
    requires leaves { Leaves program.now sizes leaving }
    requires case_lt_most_cases { case < most_cases }
    requires standing { Standing (listed_uses program.now witness.now) sizes kept.old queue.old count }
    ensures grown { Grown (listed_uses program.now witness.now) sizes kept.old queue.old count kept.new queue.new result }
    ensures by_index { (i : ℕ) → ReturnDone program.now witness.now sizes table.now kept.old kept.new q.0 leaving.vertex.0 i case }
{
    if !calls(leaving, q) {
        return count;
    }
    let mut held = count;
    for i in 0..MOST_DISJUNCTS {
        held = keep_case(
            program, sizes, witness, leaving, i, case, table, kept, queue, held,
        );
    }
    held
}

// Takes a disjunct of the summary of procedure q: the returns by it, which have the number `case` among a call's entailments, are looked at.
fn take_summary(
    program: &[i32],
    sizes: Sizes,
    owners: &[usize],
    witness: &[i32],
    q: Procedure,
    case: usize,
    table: &[u8],
    kept: &mut [u8],
    queue: &mut [usize],
    count: usize,
) -> usize
    requires known { Known program.now witness.now sizes table.now }
    requires owners { Owners program.now owners.now }
    requires case_lt_most_cases { case < most_cases }
    requires standing { Standing (listed_uses program.now witness.now) sizes kept.old queue.old count }
    ensures grown { Grown (listed_uses program.now witness.now) sizes kept.old queue.old count kept.new queue.new result }
    ensures by_index { (v i : ℕ) → ReturnDone program.now witness.now sizes table.now kept.old kept.new q.0 v i case }
{
    let vertices = sizes.statements + sizes.procedures;
    let mut held = count;
    for j in 0..vertices {
        let number = j + 1;
        let vertex = Vertex(number);
        let leaving = vertex_entailments::leaving::leaving_of(program, sizes, owners, vertex);
        held = take_returns(
            program, sizes, witness, leaving, q, case, table, kept, queue, held,
        );
    }
    held
}

// Takes the disjunct at a place.
fn take(
    program: &[i32],
    sizes: Sizes,
    owners: &[usize],
    witness: &[i32],
    place: usize,
    table: &[u8],
    kept: &mut [u8],
    queue: &mut [usize],
    count: usize,
) -> usize
    requires known { Known program.now witness.now sizes table.now }
    requires owners { Owners program.now owners.now }
    requires place_lt_most_bytes { place < most_bytes }
    requires standing { Standing (listed_uses program.now witness.now) sizes kept.old queue.old count }
    ensures grown { Grown (listed_uses program.now witness.now) sizes kept.old queue.old count kept.new queue.new result }
    ensures taken_at { TakenAt (listed_uses program.now witness.now) sizes place kept.old kept.new }
{
    let entry = place / MOST_DISJUNCTS + 1;
    let j = place % MOST_DISJUNCTS;
    let vertices = sizes.statements + sizes.procedures;
    if entry <= vertices {
        let vertex = Vertex(entry);
        return take_path(
            program, sizes, owners, witness, vertex, j, table, kept, queue, count,
        );
    }
    let number = entry - vertices;
    let q = Procedure(number);
    take_summary(
        program,
        sizes,
        owners,
        witness,
        q,
        j + 1,
        table,
        kept,
        queue,
        count,
    )
}

// The least set of disjuncts that has the start's targets and, with the sources of an entailment, the targets that its witness names, into `kept`, where
// each byte is 0 at first. A disjunct is put in the queue once, when it is found kept, and taken once. So the row of a vertex is read once for each
// kept disjunct of it and once for each kept disjunct of a summary, of which there are 256 at most. An entailment is looked at once when its
// vertex's disjunct is taken, and a return once more when the disjunct of its callee's summary is.
pub fn keep_used(
    program: &[i32],
    sizes: Sizes,
    owners: &[usize],
    witness: &[i32],
    table: &[u8],
    start: u8,
    kept: &mut [u8],
)
    requires header { Header program.now sizes × ProgramForm program.now }
    requires owners { Owners program.now owners.now }
    requires certificate_form { CertificateForm program.now witness.now }
    requires all_listed { AllListed program.now witness.now }
    requires tabled { Tabled program.now witness.now table.now start × (length table.now ≡ table_size) }
    requires kept_len { (length kept.old ≡ most_bytes) × ((b : ℕ) → get_or kept.old b 0 ≡ 0) }
    ensures exactly { Exactly (listed_uses program.now witness.now) (flags_in sizes kept.new) }
    ensures by_index { (b : ℕ) → get_or kept.new b 0 ≤ 1 }
    ensures kept_len_2 { length kept.new ≡ most_bytes }
{
    let mut queue = [0usize; MOST_BYTES];
    let mut count = keep_targets(start, 1, kept, &mut queue, 0);
    let mut head = 0;
    while head < count {
        let place = queue[head];
        count = take(
            program, sizes, owners, witness, place, table, kept, &mut queue, count,
        );
        head += 1;
    }
}
