// The part of an input that a refusal speaks of.
ghost use Rattle.std.specs.Prelude.{◌≡◌, drop};
ghost use Rattle.answers.specs.Answers.{answer_of, refusal_of};
ghost use Rattle.checker.specs.Check.{part_of, diagnosis as diagnosed, diagnosis_of};
ghost use Rattle.leukarion.specs.Parts.{part_for, start_of, part_start, diagnosis_start};

use answers::{Answer, Refusal};

// The words from a place on, empty if the place is past their end.
fn from_place<'a>(words: &'a [i32], place: usize) -> &'a [i32]
    ensures words { result.now ≡ drop place words.now }
    ensures start { result.ref_ptr ≡ start_of words.entry place }
{
    if place <= words.len() {
        &words[place..]
    } else {
        &words[words.len()..]
    }
}

// The input that a refusal is about.
#[derive(Drop)]
pub enum Part {
    Program,
    Witness,
    Neither,
}

// By the refusal's number: the program for 1 to 3, the witness for 4 to 12, 14, 15 and 25.
pub fn part_of(number: usize) -> Part
    ensures { result ≡ part_for (part_of number) }
{
    match number {
        1..=3 => Part::Program,
        13 => Part::Neither,
        4..=15 => Part::Witness,
        25 => Part::Witness,
        _ => Part::Neither,
    }
}

// The part that a refusal speaks of: of its input from its place on; of neither, the witness's empty end.
fn refused_part<'a>(program: &'a [i32], witness: &'a [i32], refusal: Refusal) -> &'a [i32]
    ensures words { result.now ≡ diagnosis_of program.now witness.now (refusal_of refusal) }
    ensures start { result.ref_ptr ≡ part_start program.entry witness.entry (refusal_of refusal) }
{
    let part = part_of(refusal.number);
    match part {
        Part::Program => from_place(program, refusal.place),
        Part::Witness => from_place(witness, refusal.place),
        Part::Neither => from_place(witness, witness.len()),
    }
}

// The part of the program or of the witness that an answer speaks of, itself and no copy: after a refusal from its place to the end, else
// the witness's empty end.
pub fn diagnosis<'a>(program: &'a [i32], witness: &'a [i32], answer: Answer) -> &'a [i32]
    ensures words { result.now ≡ diagnosed program.now witness.now (answer_of answer) }
    ensures start { result.ref_ptr ≡ diagnosis_start program.entry witness.entry (answer_of answer) }
{
    match answer {
        Answer::Safe(_) => from_place(witness, witness.len()),
        Answer::Trace(_) => from_place(witness, witness.len()),
        Answer::Refused(refusal) => refused_part(program, witness, refusal),
    }
}
