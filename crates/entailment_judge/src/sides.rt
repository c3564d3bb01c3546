// The row of a split as a premise, on one of its sides.
ghost use Rattle.std.specs.Prelude.{◌≡◌, ◌+◌, ◌≤◌, T, length, drop};
ghost use Rattle.words.specs.RowWords.{row_size, row_of};
ghost use Rattle.certificates.specs.Witnesses.{shaped_row};
ghost use Rattle.row_buffers.specs.EntryLimits.{Capacity};
ghost use Rattle.row_buffers.specs.FlatRows.{pushed};
ghost use Rattle.entailment_judge.specs.Sides.{side_of};

use premises::Variant;

// The row at `at` of the witness words, or its negative plus 1, behind the n rows of the buffer.
pub(crate) fn push_side(
    w: &[i32],
    at: usize,
    columns: usize,
    other: bool,
    premises: &mut [i64],
    n: usize,
)
    requires columns_in_bounds { (at + row_size columns ≤ length w.now) × T (shaped_row columns (row_of columns (drop at w.now))) }
    requires capacity { Capacity columns (n + 1) (length premises.old) }
    ensures { premises.new ≡ pushed columns n (side_of other (row_of columns (drop at w.now))) premises.old }
{
    let side = Variant {
        negative: other,
        plus: other,
    };
    premises::push_row(w, at, columns, side, 0, columns, premises, n);
}
