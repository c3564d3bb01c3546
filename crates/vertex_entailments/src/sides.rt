// The two sides of a condition: the op's cases lead one way, and the opposite op's, behind them, the other.
ghost use Rattle.std.specs.Prelude.{◌≡◌, ◌≤◌};
ghost use Rattle.vertex_entailments.specs.Sides.{side_at, sides_count};

use entailments::ops;
use entailments::ops::cases_count;
use program_readers::kinds::Op;
use program_readers::places::Vertex;

// One case: which of an op's it is, and where it leads.
#[derive(Drop)]
pub struct Side {
    pub op: Op,
    pub case: usize,
    pub next: Vertex,
}

// Case `case` of both sides.
pub(crate) fn side_at(yea: Vertex, nay: Vertex, op: Op, case: usize) -> Side
    ensures { result ≡ side_at yea nay op case }
{
    let yeas = cases_count(op);
    if case < yeas {
        return Side {
            op: op,
            case: case,
            next: yea,
        };
    }
    let opposite = ops::opposite(op);
    Side {
        op: opposite,
        case: case - yeas,
        next: nay,
    }
}

// How many cases there are.
pub(crate) fn sides_count(op: Op) -> usize
    ensures value { result ≡ sides_count op }
    ensures upper_bound { result ≤ 4 }
{
    let opposite = ops::opposite(op);
    cases_count(op) + cases_count(opposite)
}
