// The judgement of a certificate: the form of the program and of the certificate, then every entailment by its witness, then that no word is left.
// `safe` means that the program cannot fail an assertion: `judged_safe` in checker/specs/Demand3.antt proves it of the definition that `judge` answers by.
#![tactic(auto)]

pub mod search;

ghost use Rattle.std.specs.Prelude.{◌≡◌, ◌+◌, ◌≤◌, length};
ghost use Rattle.words.specs.Limits.{most_words};
ghost use Rattle.programs.specs.ProgramForm.{ProgramForm};
ghost use Rattle.programs.specs.Decode.{program as decoded};
ghost use Rattle.certificates.specs.CertificateWords.{certificate, witness_words};
ghost use Rattle.certificates.specs.CertificateTests.{certificate_answer};
ghost use Rattle.certificates.specs.Entailments.{entailments};
ghost use Rattle.certificates.specs.Judgement.{running, judge as judgedAll, judgement_answer};
ghost use Rattle.checker.specs.Check.{judged};
ghost use Rattle.answers.specs.Answers.{answer_of};
ghost use Rattle.program_readers.specs.Sizes.{Header};
ghost use Rattle.program_readers.specs.Owners.{Owners};
ghost use Rattle.entailments.specs.Filled.{LongBuffer};
ghost use Rattle.vertex_entailments.specs.Given.{Given};
ghost use Rattle.judge.specs.CountSoFar.{count_so_far};
ghost use Rattle.judge.specs.Progress.{progress_at, InsideWords, held_in};

use crate::search::{Ended, Through};
use answers::{Answer, Reason, Refusal};
use entailment_judge::judge_entailment;
use program_readers::places::Sizes;
use vertex_entailments::start_entailment;

const MOST_WORDS: usize = 1000000;

// Entries of the table of procedures: none, and one for each of at most 1,024 statements.
const OWNER_ENTRIES: usize = 1025;

// Of a disjunct.
const MOST_ROWS: usize = 32;

// At most 64 premises and 8 that splits add, each of a constant and at most 40 coefficients.
const PREMISE_ENTRIES: usize = 2952;

// The answer after the search. The words w begin at `start` of the certificate.
fn conclude(x: Result<Through, Ended>, w: &[i32], start: usize) -> Answer
    requires w_len_bound { (length w.now ≤ most_words) × (start ≤ most_words) }
    requires inside_words { InsideWords w.now x }
    ensures { answer_of result ≡ judgement_answer (start + length w.now) (progress_at w.now x) }
{
    match x {
        Ok(through) => {
            let at = through.at;
            if at < w.len() {
                return Answer::Refused(Refusal::at(Reason::WordsLeft, start + at));
            }
            Answer::Safe(through.held)
        }
        Err(ended) => Answer::Refused(Refusal::at(ended.reason, start + ended.at)),
    }
}

// Every entailment, the start's first, by the witness's words w. The buffer is scratch: what it holds afterwards is left open.
fn judge_all(
    program: &[i32],
    sizes: Sizes,
    owners: &[usize],
    witness: &[i32],
    rows: &[i32],
    w: &[i32],
    premises: &mut [i64],
) -> Result<Through, Ended>
    requires given { Given program.now witness.now sizes rows.now }
    requires owners { Owners program.now owners.now }
    requires long_buffer { LongBuffer premises.old }
    ensures result_value { progress_at w.now result ≡ judgedAll (entailments (decoded program.now) (certificate program.now witness.now)) (running w.now 0) }
    ensures inside_words { InsideWords w.now result }
    ensures result_value_2 { held_in result ≡ count_so_far (entailments (decoded program.now) (certificate program.now witness.now)) (running w.now 0) 0 }
{
    let start = start_entailment(program, sizes, witness);
    let mut places = [0usize; MOST_ROWS];
    let verdict = judge_entailment(start, program, rows, w, 0, premises, &mut places);
    match verdict {
        Ok(at) => search::search(program, sizes, owners, witness, rows, w, at, premises),
        Err(reason) => {
            Err(Ended {
                reason,
                at: 0,
                held: 0,
            })
        }
    }
}

// The same with a buffer of its own, and the answer. The words w begin at `start` of the certificate.
fn judge_words(
    program: &[i32],
    sizes: Sizes,
    owners: &[usize],
    witness: &[i32],
    rows: &[i32],
    w: &[i32],
    start: usize,
) -> Answer
    requires given { Given program.now witness.now sizes rows.now }
    requires owners { Owners program.now owners.now }
    requires w_value { (w.now ≡ witness_words program.now witness.now) × (start + length w.now ≡ length witness.now) }
    ensures { answer_of result ≡ judgement_answer (length witness.now) (judgedAll (entailments (decoded program.now) (certificate program.now witness.now)) (running (witness_words program.now witness.now) 0)) }
{
    let mut premises = [0i64; PREMISE_ENTRIES];
    let x = judge_all(program, sizes, owners, witness, rows, w, &mut premises);
    conclude(x, w, start)
}

// The answer to a certificate of a program that has the form. Public for the trimmer, which goes on with the sizes and the table.
pub fn judge_formed(program: &[i32], sizes: Sizes, owners: &[usize], witness: &[i32]) -> Answer
    requires header { Header program.now sizes }
    requires owners { Owners program.now owners.now }
    requires program_form { ProgramForm program.now }
    ensures { answer_of result ≡ certificate_answer program.now witness.now }
{
    let form = certificate_readers::stored_form(witness);
    let tested = certificate_form::certificate_tested(program, sizes, owners, witness, form);
    if let Err(refusal) = tested {
        return Answer::Refused(refusal);
    }
    let entries = sizes.statements + sizes.procedures + sizes.procedures;
    let start = certificate_readers::rows_start(entries);
    let end = start + reading::number_at(witness, 1, MOST_WORDS);
    judge_words(
        program,
        sizes,
        owners,
        witness,
        &witness[start..end],
        &witness[end..],
        end,
    )
}

// The answer to a program and a certificate: safe, or the refusal of the first test that fails.
pub fn judge(program: &[i32], witness: &[i32]) -> Answer
    ensures { answer_of result ≡ judged program.now witness.now }
{
    let mut owners = [0usize; OWNER_ENTRIES];
    let form = program_form::program_tested(program, &mut owners);
    match form {
        Ok(sizes) => judge_formed(program, sizes, &owners, witness),
        Err(refusal) => Answer::Refused(refusal),
    }
}
