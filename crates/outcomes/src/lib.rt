// Answers as C gets them, in one struct. The functions are public for the static libraries.
#![tactic(auto)]

ghost use Rattle.std.specs.Prelude.{◌≡◌};
ghost use Rattle.checker.specs.Check.{part_of};
ghost use Rattle.answers.specs.Answers.{answer_of, refusal_of};
ghost use Rattle.outcomes.specs.Outcomes.{part_number, refused_outcome, outcome_of};
ghost use Rattle.outcomes.specs.WritingOutcomes.{outcome_for};

use answers::{Answer, Refusal};
use leukarion::Part;

// Kind 1 is safe, with the number of entailments; 2 a trace, with the number of steps; 3 a refusal, with its number, its place, the input that
// it is about, 1 for the program and 2 for the witness, and the line of the plan's text, 0 where there is none; 4 written, with the number of
// words. No kind is 0, so that a cleared struct is no answer.
#[repr(C)]
#[derive(Drop)]
pub struct Outcome {
    pub kind: u64,
    pub number: u64,
    pub place: u64,
    pub part: u64,
    pub line: u64,
}

fn part_number(number: usize) -> u64
    ensures { result ≡ part_number (part_of number) }
{
    let part = leukarion::part_of(number);
    match part {
        Part::Program => 1,
        Part::Witness => 2,
        Part::Neither => 0,
    }
}

fn refused(refusal: Refusal) -> Outcome
    ensures { result ≡ refused_outcome (refusal_of refusal) }
{
    let part = part_number(refusal.number);
    Outcome {
        kind: 3,
        number: refusal.number as u64,
        place: refusal.place as u64,
        part,
        line: refusal.line as u64,
    }
}

// An answer, told.
pub fn told(answer: Answer) -> Outcome
    ensures { result ≡ outcome_of (answer_of answer) }
{
    match answer {
        Answer::Safe(count) => {
            Outcome {
                kind: 1,
                number: count as u64,
                place: 0,
                part: 0,
                line: 0,
            }
        }
        Answer::Trace(steps) => {
            Outcome {
                kind: 2,
                number: steps as u64,
                place: 0,
                part: 0,
                line: 0,
            }
        }
        Answer::Refused(refusal) => refused(refusal),
    }
}

// What a writer answers, told.
pub fn writing_told(writing: Result<usize, Refusal>) -> Outcome
    ensures { result ≡ outcome_for writing }
{
    match writing {
        Ok(count) => {
            Outcome {
                kind: 4,
                number: count as u64,
                place: 0,
                part: 0,
                line: 0,
            }
        }
        Err(refusal) => refused(refusal),
    }
}
