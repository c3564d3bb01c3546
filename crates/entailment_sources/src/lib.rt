// What an entailment comes from and where it leads, from the words: the entry that it leads to, and whether its sources are among the kept disjuncts,
// which are bytes (specs/KeptBytes); and the numbers that disjuncts have among the kept ones.
#![tactic(auto)]

pub mod new_numbers;

ghost use Rattle.std.specs.Prelude.{◌≡◌, List, ◌+◌, ◌≤◌, ◌<◌, ℤ, length};
ghost use Rattle.words.specs.Limits.{most_vertices, most_procedures, most_disjuncts};
ghost use Rattle.programs.specs.ProgramForm.{ProgramForm};
ghost use Rattle.program_readers.specs.Sizes.{Header};
ghost use Rattle.vertex_entailments.specs.Leaving.{WayForm, Leaves};
ghost use Rattle.vertex_entailments.specs.Sides.{side_at};
ghost use Rattle.entailment_sources.specs.KeptBytes.{most_entries, most_bytes, byte_of, byte_is_one};
ghost use Rattle.entailment_sources.specs.CaseLaws.{call_entry};
ghost use Rattle.entailment_sources.specs.WayLaws.{return_kept, LeadsTo, SourcesKept};

use program_readers::kinds::Op;
use program_readers::places::{Procedure, Sizes, Vertex};
use program_readers::statements::CallRow;
use vertex_entailments::leaving::{Leaving, Way};

const MOST_DISJUNCTS: usize = 8;

// The place of disjunct j, from 0, of an entry.
pub fn byte_of(entry: usize, j: usize) -> usize
    requires le { (1 ≤ entry) × (entry ≤ most_entries) }
    requires j_lt_most_disjuncts { j < most_disjuncts }
    ensures value { result ≡ byte_of entry j }
    ensures upper_bound { result < most_bytes }
{
    (entry - 1) * MOST_DISJUNCTS + j
}

// Disjunct j of an entry is kept.
pub fn is_kept(kept: &[u8], entry: usize, j: usize) -> bool
    requires le { (1 ≤ entry) × (entry ≤ most_entries) }
    requires j_lt_most_disjuncts { j < most_disjuncts }
    requires kept_len { length kept.now ≡ most_bytes }
    ensures { result ≡ byte_is_one kept.now entry j }
{
    let place = byte_of(entry, j);
    kept[place] == 1
}

// Where case `case` of a condition leads: the op's cases lead one way, and the opposite op's, behind them, the other.
fn side_entry(yea: Vertex, nay: Vertex, op: Op, case: usize) -> usize
    ensures { result ≡ (side_at yea nay op case).next.0 }
{
    if case < entailments::ops::cases_count(op) {
        return yea.0;
    }
    nay.0
}

// A call's first entailment leads to its callee's first vertex, and each other to its return point.
fn call_entry(program: &[i32], sizes: Sizes, row: CallRow, case: usize) -> usize
    requires header { Header program.now sizes }
    requires callee_le_most_procedures { row.callee.0 ≤ most_procedures }
    ensures { result ≡ call_entry program.now row.back.0 row.callee.0 case }
{
    if case == 0 {
        let start = program_readers::readers::first_of(program, sizes, row.callee);
        return start.0;
    }
    row.back.0
}

// The number of the entry that entailment `case` of a disjunct leads to; 0 for a failed assertion.
pub fn leads_to(program: &[i32], sizes: Sizes, leaving: Leaving, case: usize) -> usize
    requires header { Header program.now sizes × ProgramForm program.now }
    requires leaves { Leaves program.now sizes leaving }
    ensures { LeadsTo program.now sizes leaving.vertex.0 case result }
{
    let way = leaving.way;
    match way {
        Way::Skip(row) => row.next.0,
        Way::Assign(row) => row.next.0,
        Way::Branch(row) => side_entry(row.yea, row.nay, row.op, case),
        Way::Assert(row) => side_entry(row.next, Vertex(0), row.op, case),
        Way::Call(row) => call_entry(program, sizes, row, case),
        Way::Exit { q } => program_readers::places::summary_entry(sizes, q),
    }
}

// A call's first entailment comes from its disjunct alone, and the one behind comes back by summary disjunct 0.
fn return_kept(sizes: Sizes, callee: Procedure, case: usize, kept: &[u8]) -> bool
    requires bound { (1 ≤ sizes.statements + sizes.procedures) × (sizes.statements + sizes.procedures ≤ most_vertices) }
    requires callee_le_most_procedures { callee.0 ≤ most_procedures }
    requires case_le_most_disjuncts { case ≤ most_disjuncts }
    requires kept_len { length kept.now ≡ most_bytes }
    ensures { result ≡ return_kept kept.now (sizes.statements + sizes.procedures + callee.0) case }
{
    if case == 0 {
        return true;
    }
    let summary = program_readers::places::summary_entry(sizes, callee);
    is_kept(kept, summary, case - 1)
}

// Whether the sources of entailment `case` of disjunct i, from 0, are kept.
pub fn sources_kept(sizes: Sizes, leaving: Leaving, i: usize, case: usize, kept: &[u8]) -> bool
    requires procedures_bound { sizes.statements + sizes.procedures ≤ most_vertices }
    requires le_vertex { (1 ≤ leaving.vertex.0) × (leaving.vertex.0 ≤ sizes.statements + sizes.procedures) }
    requires way_form { WayForm leaving.way }
    requires i_lt_most_disjuncts { (i < most_disjuncts) × (case ≤ most_disjuncts) }
    requires kept_len { length kept.now ≡ most_bytes }
    ensures { (program : List ℤ) → Header program sizes → ProgramForm program → Leaves program sizes leaving → SourcesKept program sizes leaving.vertex.0 i case kept.now result }
{
    let vertex = leaving.vertex;
    let entry = program_readers::places::path_entry(vertex);
    if !is_kept(kept, entry, i) {
        return false;
    }
    let way = leaving.way;
    match way {
        Way::Skip(_) => true,
        Way::Assign(_) => true,
        Way::Branch(_) => true,
        Way::Assert(_) => true,
        Way::Call(row) => return_kept(sizes, row.callee, case, kept),
        Way::Exit { .. } => true,
    }
}
