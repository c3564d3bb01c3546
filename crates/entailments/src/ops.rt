// The cases of a condition's op. The functions are public for the crates above.
ghost use Rattle.std.specs.Prelude.{◌≡◌, length};
ghost use Rattle.rows.specs.Rows.{Row};
ghost use Rattle.program_readers.specs.Kinds.{op_number, op_named};
ghost use Rattle.entailments.specs.OpCases.{opposite_number, opposite_op, op_cases};

use program_readers::kinds::Op;

// The op of a number. One above 6 is no op's, and is taken for that of ≠.
#[tactic(auto, unfolding(program_readers::specs::Kinds::op_named))]
pub fn op_of(number: usize) -> Op
    ensures { result ≡ op_named number }
{
    match number {
        0 => Op::Choice,
        1 => Op::Less,
        2 => Op::Greater,
        3 => Op::AtMost,
        4 => Op::AtLeast,
        5 => Op::Equal,
        _ => Op::Different,
    }
}

// The number of an op.
pub fn number_of(op: Op) -> usize
    ensures { result ≡ op_number op }
{
    match op {
        Op::Choice => 0,
        Op::Less => 1,
        Op::Greater => 2,
        Op::AtMost => 3,
        Op::AtLeast => 4,
        Op::Equal => 5,
        Op::Different => 6,
    }
}

// The op whose cases are the false side's.
#[tactic(auto, unfolding(crate::specs::OpCases::opposite_op))]
pub fn opposite(op: Op) -> Op
    ensures { result ≡ opposite_op op }
{
    match op {
        Op::Choice => Op::Choice,
        Op::Less => Op::AtLeast,
        Op::Greater => Op::AtMost,
        Op::AtMost => Op::Greater,
        Op::AtLeast => Op::Less,
        Op::Equal => Op::Different,
        Op::Different => Op::Equal,
    }
}

// The same by numbers, of which it takes any.
#[tactic(auto, unfolding(crate::specs::OpCases::opposite_number))]
pub fn opposite_op(op: usize) -> usize
    ensures { result ≡ opposite_number op }
{
    match op {
        0 => 0,
        1 => 4,
        2 => 3,
        3 => 2,
        4 => 1,
        5 => 6,
        _ => 5,
    }
}

// How many cases `e op 0` has.
#[tactic(auto, using(crate::proofs::OpCases::count_cases), unfolding(crate::specs::OpCases::case_count))]
pub fn cases_count(op: Op) -> usize
    ensures { (e : Row) → result ≡ length (op_cases op e) }
{
    match op {
        Op::Different => 2,
        _ => 1,
    }
}
