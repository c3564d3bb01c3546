// The procedure of each statement, found once and kept in a table: entry v is the procedure of the vertex v.
// What is `pub` here is public for the crates above.
ghost use Rattle.std.specs.Prelude.{◌≡◌, List, ◌+◌, ◌-◌, ◌≤◌, ◌<◌, ℤ, length};
ghost use Rattle.words.specs.Limits.{most_statements, most_globals, most_locals};
ghost use Rattle.programs.specs.ProgramWords.{k, procedure_of};
ghost use Rattle.program_readers.specs.Sizes.{Header};
ghost use Rattle.program_readers.specs.Owners.{ExitsPass, Reached, Owners};

use crate::places::{Procedure, Sizes, Vertex};
use crate::{places, readers};

// The procedure of a vertex, from that of the vertex before it.
fn procedure_after(program: &[i32], sizes: Sizes, q: Procedure, v: Vertex) -> Procedure
    requires header { Header program.now sizes }
    requires exits_pass { ExitsPass program.now }
    requires le_v { 1 ≤ v.0 }
    requires reached { Reached program.now (v.0 - 1) q.0 }
    ensures { Reached program.now v.0 result.0 }
{
    if q.0 < sizes.procedures {
        let next = Procedure(q.0 + 1);
        let first = readers::first_of(program, sizes, next);
        if first.0 == v.0 {
            return next;
        }
    }
    q
}

// One pass over the statements, with the procedure carried along. What entry 0 and the entries behind n hold is left open.
pub fn fill_owners(program: &[i32], sizes: Sizes, owners: &mut [usize])
    requires header { Header program.now sizes }
    requires exits_pass { ExitsPass program.now }
    requires most_statements_in_bounds { most_statements < length owners.old }
    ensures owners { Owners program.now owners.new }
    ensures owners_len_unchanged { length owners.new ≡ length owners.old }
{
    let n = sizes.statements;
    let mut q = Procedure(0);
    for i in 0..n {
        let v = Vertex(i + 1);
        q = procedure_after(program, sizes, q, v);
        owners[places::owner_slot(v)] = q.0;
    }
}

// The procedure of a vertex; an exit's follows from its number.
pub fn procedure_of(sizes: Sizes, owners: &[usize], v: Vertex) -> Procedure
    requires { sizes.statements < length owners.now }
    ensures { (program : List ℤ) → Header program sizes → Owners program owners.now → 1 ≤ v.0 → result.0 ≡ procedure_of program v.0 }
{
    let n = sizes.statements;
    if v.0 <= n {
        let slot = places::owner_slot(v);
        return Procedure(owners[slot]);
    }
    Procedure(v.0 - n)
}

// k of a vertex: the globals and its procedure's locals.
pub fn k_of(program: &[i32], sizes: Sizes, owners: &[usize], v: Vertex) -> usize
    requires header { Header program.now sizes }
    requires owners { Owners program.now owners.now }
    requires le_v { 1 ≤ v.0 }
    requires v_bound { v.0 ≤ sizes.statements + sizes.procedures }
    ensures value { result ≡ k program.now v.0 }
    ensures upper_bound { result ≤ most_globals + most_locals }
{
    let q = procedure_of(sizes, owners, v);
    sizes.globals + readers::locals_of(program, sizes, q)
}
