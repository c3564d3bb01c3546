// Answers, as the code gives them.
#![tactic(auto)]

ghost use Rattle.std.specs.Prelude.{◌≡◌};
ghost use Rattle.answers.specs.Answers.{number_of};
ghost use Rattle.answers.specs.Tested.{refusal_at};

// What is tested: the cause of a refusal, in the order of the papers' table.
#[derive(Clone, Copy, PartialEq, Eq)]
pub enum Reason {
    // The program.
    ProgramSizes,
    ExitRow,
    StatementRow,
    // A certificate.
    Header,
    Entry,
    WitnessWord,
    WeightedSum,
    WordsLeft,
    // A trace.
    StartValue,
    ListedVertex,
    ValueLimit,
    CallDepth,
    BufferLength,
    EntryValues,
    // Rows of a certificate.
    ConstantRow,
    SparseRow,
    // What a writer writes.
    ResultLength,
}

impl Reason {
    // The papers' number.
    pub fn number(self) -> usize
        ensures { result ≡ number_of self }
    {
        match self {
            Reason::ProgramSizes => 1,
            Reason::ExitRow => 2,
            Reason::StatementRow => 3,
            Reason::Header => 4,
            Reason::Entry => 5,
            Reason::WitnessWord => 6,
            Reason::WeightedSum => 7,
            Reason::WordsLeft => 8,
            Reason::StartValue => 9,
            Reason::ListedVertex => 10,
            Reason::ValueLimit => 11,
            Reason::CallDepth => 12,
            Reason::BufferLength => 13,
            Reason::EntryValues => 14,
            Reason::ConstantRow => 15,
            Reason::SparseRow => 25,
            Reason::ResultLength => 26,
        }
    }
}

// A refusal: the number of its reason, the word of its input that it is about, and the line of the plan's text, 0 where there is none.
#[derive(Clone, Copy)]
pub struct Refusal {
    pub number: usize,
    pub place: usize,
    pub line: usize,
}

impl Refusal {
    // One without a line.
    pub fn at(reason: Reason, place: usize) -> Refusal
        ensures { result ≡ refusal_at reason place }
    {
        Refusal {
            number: reason.number(),
            place,
            line: 0,
        }
    }
}

// Safe, with the number of entailments; trace, with the number of steps; or the refusal of the first test that failed.
#[derive(Drop)]
pub enum Answer {
    Safe(usize),
    Trace(usize),
    Refused(Refusal),
}
