// Vertex and procedure numbers, "counted apart and never used for each other", the sizes of a program, and the places that follow from them.
// What is `pub` here is public for the crates above.
ghost use Rattle.std.specs.Prelude.{◌≡◌, ◌+◌, ◌-◌, ◌≤◌};
ghost use Rattle.words.specs.Limits.{most_vertices, most_procedures};
ghost use Rattle.programs.specs.ProgramWords.{kind_place};
ghost use Rattle.program_readers.specs.Sizes.{sizes_of};

const MOST_STATEMENTS: usize = 1024;

const MOST_PROCEDURES: usize = 32;

const MOST_GLOBALS: usize = 8;

// The pool's words.
const MOST_POOL: usize = 12000;

// 1..=n are the statements, n+1..=n+p the exits, and 0 is a failed assertion.
#[derive(Clone, Copy)]
pub struct Vertex(pub usize);

// 1..=p; main is 1.
#[derive(Clone, Copy)]
pub struct Procedure(pub usize);

// n, p, G and Q.
#[derive(Clone, Copy)]
pub struct Sizes {
    pub statements: usize,
    pub procedures: usize,
    pub globals: usize,
    pub pool: usize,
}

#[tactic(auto, unfolding(crate::specs::Sizes::sizes_of))]
pub fn sizes_of(program: &[i32]) -> Sizes
    ensures { result ≡ sizes_of program.now }
{
    Sizes {
        statements: reading::number_at(program, 0, MOST_STATEMENTS),
        procedures: reading::number_at(program, 1, MOST_PROCEDURES),
        globals: reading::number_at(program, 2, MOST_GLOBALS),
        pool: reading::number_at(program, 3, MOST_POOL),
    }
}

// The place of a vertex in the tables of kinds and of row places: these begin with vertex 1.
fn vertex_slot(v: Vertex) -> usize
    requires { 1 ≤ v.0 }
    ensures { result ≡ v.0 - 1 }
{
    v.0 - 1
}

// The place of a vertex in the table of procedures, `owners`: entry v is for the vertex v, and entry 0 for none.
pub(crate) fn owner_slot(statement: Vertex) -> usize
    ensures { result ≡ statement.0 }
{
    statement.0
}

// The number of a vertex's path entry among a certificate's entries: these are counted from 1, as the vertices are.
pub fn path_entry(vertex: Vertex) -> usize
    ensures { result ≡ vertex.0 }
{
    vertex.0
}

// The number of a procedure's summary among a certificate's entries: the summaries follow the vertices.
pub fn summary_entry(sizes: Sizes, q: Procedure) -> usize
    requires procedures_bound { sizes.statements + sizes.procedures ≤ most_vertices }
    requires q_le_most_procedures { q.0 ≤ most_procedures }
    ensures { result ≡ sizes.statements + sizes.procedures + q.0 }
{
    sizes.statements + sizes.procedures + q.0
}

// The exit of a procedure.
pub fn exit_of(sizes: Sizes, q: Procedure) -> Vertex
    requires procedures_bound { sizes.statements + sizes.procedures ≤ most_vertices }
    requires q_le_most_procedures { q.0 ≤ most_procedures }
    ensures { result.0 ≡ sizes.statements + q.0 }
{
    Vertex(sizes.statements + q.0)
}

// Where the kind word of a vertex stands: the kinds follow the four sizes.
pub fn kind_place(v: Vertex) -> usize
    requires le_v { 1 ≤ v.0 }
    requires v_le_most_vertices { v.0 ≤ most_vertices }
    ensures { result ≡ kind_place v.0 }
{
    4 + vertex_slot(v)
}

// Where the word with the place of a vertex's row stands: these words follow the kinds.
pub fn row_place(sizes: Sizes, v: Vertex) -> usize
    requires procedures_bound { sizes.statements + sizes.procedures ≤ most_vertices }
    requires le_v { 1 ≤ v.0 }
    requires v_le_most_vertices { v.0 ≤ most_vertices }
    ensures { result ≡ 3 + (sizes.statements + sizes.procedures) + v.0 }
{
    4 + (sizes.statements + sizes.procedures) + vertex_slot(v)
}
