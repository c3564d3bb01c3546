// The entailments as values, by their kinds: the place of the target's disjuncts is read, and the columns are counted.
ghost use Rattle.std.specs.Prelude.{◌≡◌, ◌+◌, ◌≤◌, ◌<◌, length, get_or};
ghost use Rattle.words.specs.Limits.{most_vertices, most_procedures};
ghost use Rattle.programs.specs.ProgramWords.{first};
ghost use Rattle.programs.specs.ProgramForm.{ProgramForm};
ghost use Rattle.program_readers.specs.Sizes.{Header};
ghost use Rattle.program_readers.specs.Kinds.{op_number};
ghost use Rattle.entailments.specs.declared.Added.TheVariants.{Guard};
ghost use Rattle.entailments.specs.declared.Image.TheVariants.{Path};
ghost use Rattle.entailments.specs.Forms.{ShapeForm};
ghost use Rattle.vertex_entailments.specs.Targets.{path_target, summary_target};
ghost use Rattle.vertex_entailments.specs.Values.{shape_of, path_value, exit_value, entry_value, return_value, start_value, added_at};

use crate::sides::Side;
use crate::targets::{path_target, summary_target};
use entailments::{Added, Entailment, Image, Shape, ops};
use program_readers::places::{Procedure, Sizes, Vertex};

// The columns of a procedure, beside the k of the path that is left.
pub(crate) fn shape_of(program: &[i32], sizes: Sizes, k: usize, q: Procedure) -> Shape
    requires header { Header program.now sizes }
    requires program_form { ProgramForm program.now }
    requires le_q { (1 ≤ q.0) × (q.0 ≤ sizes.procedures) }
    ensures { result ≡ shape_of program.now sizes k q.0 }
{
    let parameters = program_readers::readers::parameters_of(program, sizes, q);
    let locals = program_readers::readers::locals_of(program, sizes, q);
    Shape {
        k: k,
        globals: sizes.globals,
        parameters: parameters,
        others: locals - parameters,
    }
}

// To a vertex of the same procedure, or to a failed assertion.
pub(crate) fn path_entailment(
    sizes: Sizes,
    witness: &[i32],
    shape: Shape,
    from: usize,
    n: usize,
    added: Added,
    image: Image,
    next: Vertex,
) -> Entailment
    requires procedures_bound { sizes.statements + sizes.procedures ≤ most_vertices }
    requires shape_form { ShapeForm shape × (next.0 ≤ most_vertices) }
    ensures { result ≡ path_value shape from n added image (path_target sizes witness.now next.0) }
{
    let target = path_target(sizes, witness, next);
    let form = target.form;
    let columns = shape.k + shape.k;
    Entailment {
        shape: shape,
        columns: columns,
        from: from,
        n: n,
        added: added,
        image: image,
        place: target.place,
        count: target.count,
        width: columns,
        form,
    }
}

// By a case of a condition, whose expression stands at `at`.
pub(crate) fn guard_entailment(
    sizes: Sizes,
    witness: &[i32],
    shape: Shape,
    from: usize,
    n: usize,
    side: Side,
    at: usize,
) -> Entailment
    requires procedures_bound { sizes.statements + sizes.procedures ≤ most_vertices }
    requires shape_form { ShapeForm shape × (side.next.0 ≤ most_vertices) }
    ensures { result ≡ path_value shape from n (Guard (op_number side.op) side.case at) Path (path_target sizes witness.now side.next.0) }
{
    let op = ops::number_of(side.op);
    let added = Added::Guard(op, side.case, at);
    let next = side.next;
    path_entailment(sizes, witness, shape, from, n, added, Image::Path, next)
}

// From an exit of q, to its summary.
pub(crate) fn exit_entailment(
    sizes: Sizes,
    witness: &[i32],
    shape: Shape,
    q: Procedure,
    from: usize,
    n: usize,
) -> Entailment
    requires procedures_bound { sizes.statements + sizes.procedures ≤ most_vertices }
    requires shape_form { ShapeForm shape × (q.0 ≤ most_procedures) }
    ensures { result ≡ exit_value shape from n (summary_target sizes witness.now q.0) }
{
    let target = summary_target(sizes, witness, q);
    let form = target.form;
    let globals = shape.globals;
    Entailment {
        shape: shape,
        columns: shape.k + shape.k,
        from: from,
        n: n,
        added: Added::Nothing,
        image: Image::Exit,
        place: target.place,
        count: target.count,
        width: globals + shape.parameters + globals,
        form,
    }
}

// From a call, to the callee's first vertex.
pub(crate) fn entry_entailment(
    program: &[i32],
    sizes: Sizes,
    witness: &[i32],
    shape: Shape,
    callee: Procedure,
    actuals: usize,
    from: usize,
    n: usize,
) -> Entailment
    requires header { Header program.now sizes }
    requires shape_form { ShapeForm shape × (callee.0 ≤ most_procedures) }
    ensures { result ≡ entry_value shape from n actuals (path_target sizes witness.now (first program.now callee.0)) }
{
    let next = program_readers::readers::first_of(program, sizes, callee);
    let target = path_target(sizes, witness, next);
    let form = target.form;
    let own = shape.globals + (shape.parameters + shape.others);
    let k = shape.k;
    Entailment {
        shape: shape,
        columns: k + k + shape.others,
        from: from,
        n: n,
        added: Added::Nothing,
        image: Image::Entry(actuals),
        place: target.place,
        count: target.count,
        width: own + own,
        form,
    }
}

// What disjunct j, from 0, of the callee's summary adds to the premises, by the table of the places of its disjuncts.
pub(crate) fn summary_added(rows: &[i32], summaries: &[usize], actuals: usize, j: usize) -> Added
    requires j_in_bounds { j < length summaries.now }
    requires j_in_bounds_2 { get_or summaries.now j 0 < length rows.now }
    ensures { result ≡ added_at rows.now actuals (get_or summaries.now j 0) }
{
    let place = summaries[j];
    let n = certificate_readers::row_count(rows, place);
    Added::Summary(place + 1, n, actuals)
}

// From a call, with what a disjunct of its summary adds, to the return point.
pub(crate) fn return_entailment(
    sizes: Sizes,
    witness: &[i32],
    shape: Shape,
    from: usize,
    n: usize,
    added: Added,
    back: Vertex,
) -> Entailment
    requires procedures_bound { sizes.statements + sizes.procedures ≤ most_vertices }
    requires shape_form { ShapeForm shape × (back.0 ≤ most_vertices) }
    ensures { result ≡ return_value shape from n added (path_target sizes witness.now back.0) }
{
    let target = path_target(sizes, witness, back);
    let form = target.form;
    Entailment {
        shape: shape,
        columns: shape.k + shape.k + shape.globals,
        from: from,
        n: n,
        added: added,
        image: Image::Return,
        place: target.place,
        count: target.count,
        width: shape.k + shape.k,
        form,
    }
}

// To vertex 1, from nothing: there is no path yet, and the shape is main's.
pub(crate) fn first_entailment(sizes: Sizes, witness: &[i32], shape: Shape) -> Entailment
    requires procedures_bound { sizes.statements + sizes.procedures ≤ most_vertices }
    requires shape_form { ShapeForm shape }
    ensures { result ≡ start_value shape (path_target sizes witness.now 1) }
{
    let target = path_target(sizes, witness, Vertex(1));
    let form = target.form;
    let half = shape.globals + (shape.parameters + shape.others);
    Entailment {
        shape: shape,
        columns: half,
        from: 0,
        n: 0,
        added: Added::Nothing,
        image: Image::Start,
        place: target.place,
        count: target.count,
        width: half + half,
        form,
    }
}
