// The premises that are sparse rows: each begins where the one before it ends.
ghost use Rattle.std.specs.Prelude.{◌≡◌, ◌++◌, ◌+◌, ◌*◌, ◌≤◌, length, drop};
ghost use Rattle.rows.specs.Rows.{substitute_all};
ghost use Rattle.words.specs.declared.StoredForm.TheVariants.{Sparse};
ghost use Rattle.words.specs.SparseRows.{sparse_rows_of, sparse_words};
ghost use Rattle.certificate_readers.specs.Disjuncts.{DisjunctHere};
ghost use Rattle.row_buffers.specs.HeldRows.{stride};
ghost use Rattle.row_buffers.specs.EntryLimits.{Capacity};
ghost use Rattle.row_buffers.specs.FlatRows.{flat_rows};
ghost use Rattle.row_buffers.specs.PlacedRows.{PlacedHere, placed_rows};
ghost use Rattle.entailments.specs.declared.Image.TheVariants.{Called};
ghost use Rattle.entailments.specs.Meaning.{image_rows};
ghost use Rattle.entailments.specs.Forms.{ImageHere};
ghost use Rattle.premises.specs.PushedRows.{pushed_rows};

use entailments::{Image, Shape};

// The `count` sparse rows of m columns at `from` of the row words, as the buffer's first rows, each filled up with zeros.
pub(crate) fn spread_rows(
    rows: &[i32],
    from: usize,
    m: usize,
    count: usize,
    columns: usize,
    premises: &mut [i64],
)
    requires disjunct_here { DisjunctHere Sparse m rows.now from count }
    requires m_le_columns { m ≤ columns }
    requires capacity { Capacity columns count (length premises.old) }
    ensures { premises.new ≡ flat_rows columns (sparse_rows_of m count (drop from rows.now)) ++ drop (count * stride columns) premises.old }
{
    let mut place = from;
    for j in 0..count {
        let row = j * (1 + columns);
        let size = row_buffers::spread_row(rows, place, m, columns, &mut premises[row..]);
        place = place + size;
    }
}

// The `count` sparse rows of a summary's disjunct at `from` of the row words, behind the n rows of the buffer: over the columns of the call, whose
// actuals stand at `at` of the words.
pub(crate) fn push_sparse(
    words: &[i32],
    at: usize,
    s: Shape,
    rows: &[i32],
    from: usize,
    count: usize,
    premises: &mut [i64],
    n: usize,
)
    requires image_here { ImageHere words.now s (Called at) (s.k + s.k + s.globals) (s.globals + s.parameters + s.globals) }
    requires disjunct_here { DisjunctHere Sparse (s.globals + s.parameters + s.globals) rows.now from count }
    requires capacity { Capacity (s.k + s.k + s.globals) (n + count) (length premises.old) }
    ensures { premises.new ≡ pushed_rows (s.k + s.k + s.globals) n (substitute_all (image_rows words.now s (Called at)) (sparse_rows_of (s.globals + s.parameters + s.globals) count (drop from rows.now))) premises.old }
{
    let columns = s.k + s.k + s.globals;
    let m = s.globals + s.parameters + s.globals;
    let mut place = from;
    for i in 0..count {
        let row = (n + i) * (1 + columns);
        let size = images::used_columns::substitute_sparse(
            words,
            Image::Called(at),
            s,
            columns,
            rows,
            place,
            m,
            &mut premises[row..],
        );
        place = place + size;
    }
}

// The places of `count` sparse rows of m columns from `from` on, as the table's first; where the rows end.
pub(crate) fn row_places(
    rows: &[i32],
    from: usize,
    m: usize,
    count: usize,
    places: &mut [usize],
) -> usize
    requires disjunct_here { DisjunctHere Sparse m rows.now from count }
    requires count_in_bounds { count ≤ length places.old }
    ensures placed_here { PlacedHere m rows.now count places.new }
    ensures places_after { placed_rows m rows.now count places.new ≡ sparse_rows_of m count (drop from rows.now) }
    ensures value { result ≡ from + sparse_words m count (drop from rows.now) }
{
    let mut place = from;
    for j in 0..count {
        places[j] = place;
        let used = sparse_rows::used_inside(rows, place, m);
        let size = 3 + (used + used);
        place = place + size;
    }
    place
}
