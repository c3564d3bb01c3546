// The kinds of vertices and the ops of conditions. A program's words have them by number, which is read once.
ghost use Rattle.program_readers.specs.Kinds.{KindOf};

// What stands at a vertex.
#[derive(Clone, Copy, PartialEq, Eq)]
pub enum Kind {
    Skip,
    Assign,
    Branch,
    Assert,
    Call,
    Exit,
}

// What a condition compares its expression with 0 by; a choice compares nothing.
#[derive(Clone, Copy, PartialEq, Eq)]
pub enum Op {
    Choice,
    Less,
    Greater,
    AtMost,
    AtLeast,
    Equal,
    Different,
}

// A number that no kind has.
#[derive(Clone, Copy, PartialEq, Eq)]
pub struct UnknownKind(pub usize);

impl TryFrom<usize> for Kind {
    type Error = UnknownKind;

    ghost try_from_gives = { KindOf };

    fn try_from(number: usize) -> Result<Kind, UnknownKind> {
        match number {
            1 => Ok(Kind::Skip),
            2 => Ok(Kind::Assign),
            3 => Ok(Kind::Branch),
            4 => Ok(Kind::Assert),
            5 => Ok(Kind::Call),
            6 => Ok(Kind::Exit),
            _ => Err(UnknownKind(number)),
        }
    }
}
