// What a vertex says, read once for all its disjuncts: its statement's row, or that a procedure ends there, and the columns of what leaves it.
ghost use Rattle.std.specs.Prelude.{◌≡◌, ◌+◌, ◌≤◌};
ghost use Rattle.programs.specs.ProgramWords.{k as columns_of};
ghost use Rattle.programs.specs.ProgramForm.{ProgramForm};
ghost use Rattle.program_readers.specs.Sizes.{Header};
ghost use Rattle.program_readers.specs.Owners.{Owners};
ghost use Rattle.vertex_entailments.specs.Leaving.{Leaves};

use crate::values::shape_of;
use entailments::Shape;
use program_readers::places::{Procedure, Sizes, Vertex};
use program_readers::procedures::{k_of, procedure_of};
use program_readers::statements::{
    AssertRow, AssignRow, BranchRow, CallRow, Fields, SkipRow, statement_row,
};

// By the kind of the vertex: the row of its statement, or whose exit it is.
#[derive(Clone, Copy)]
pub enum Way {
    Skip(SkipRow),
    Assign(AssignRow),
    Branch(BranchRow),
    Assert(AssertRow),
    Call(CallRow),
    Exit { q: Procedure },
}

// The shape is that of each entailment of the vertex.
#[derive(Clone, Copy)]
pub struct Leaving {
    pub vertex: Vertex,
    pub shape: Shape,
    pub way: Way,
}

// What leaves a statement, at a path of k columns.
fn leaving_statement(program: &[i32], sizes: Sizes, v: Vertex, k: usize) -> Leaving
    requires header { Header program.now sizes × ProgramForm program.now }
    requires le_v { (1 ≤ v.0) × (v.0 ≤ sizes.statements) }
    requires k_value { k ≡ columns_of program.now v.0 }
    ensures vertex_value { result.vertex ≡ v }
    ensures leaves { Leaves program.now sizes result }
{
    let shape = Shape {
        k: k,
        globals: sizes.globals,
        parameters: 0,
        others: 0,
    };
    let row = statement_row(program, sizes, v);
    let fields = row.fields;
    match fields {
        Fields::Skip(skip) => Leaving {
            vertex: v,
            shape: shape,
            way: Way::Skip(skip),
        },
        Fields::Assign(assign) => Leaving {
            vertex: v,
            shape: shape,
            way: Way::Assign(assign),
        },
        Fields::Branch(branch) => Leaving {
            vertex: v,
            shape: shape,
            way: Way::Branch(branch),
        },
        Fields::Assert(assert) => Leaving {
            vertex: v,
            shape: shape,
            way: Way::Assert(assert),
        },
        Fields::Call(call) => Leaving {
            vertex: v,
            shape: shape_of(program, sizes, k, call.callee),
            way: Way::Call(call),
        },
    }
}

pub fn leaving_of(program: &[i32], sizes: Sizes, owners: &[usize], v: Vertex) -> Leaving
    requires header { Header program.now sizes × ProgramForm program.now }
    requires owners { Owners program.now owners.now }
    requires le_v { (1 ≤ v.0) × (v.0 ≤ sizes.statements + sizes.procedures) }
    ensures vertex_value { result.vertex ≡ v }
    ensures leaves { Leaves program.now sizes result }
{
    let k = k_of(program, sizes, owners, v);
    if v.0 <= sizes.statements {
        return leaving_statement(program, sizes, v, k);
    }
    let q = procedure_of(sizes, owners, v);
    Leaving {
        vertex: v,
        shape: shape_of(program, sizes, k, q),
        way: Way::Exit { q },
    }
}
