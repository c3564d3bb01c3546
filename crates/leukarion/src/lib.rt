// The checker: a program, a certificate or a trace, and a result buffer. Any slices will do: nothing is required of them.
// What `check` promises, its answer and the buffer afterwards, is the record `Checked` of specs/Promises.antt, and what follows from it is there.
#![tactic(auto)]

ghost use Rattle.std.specs.Prelude.{◌≡◌};
ghost use Rattle.traces.specs.Replay.{final_values};
ghost use Rattle.answers.specs.Answers.{answer_of};
ghost use Rattle.trace_steps.specs.Results.{front_count};
ghost use Rattle.leukarion.specs.Promises.{Checked};
ghost use Rattle.leukarion.specs.ValueCount.{value_count};

use answers::{Answer, Reason};
use trace_steps::results::Counted;

mod parts;

pub use parts::{Part, diagnosis, part_of};

const TRACE_MARK: usize = 3;

// The answer to a program and a witness, which is a trace if its first word is 3, and else a certificate; and how many values it leaves at the
// buffer's front.
pub fn check_counted(program: &[i32], witness: &[i32], buffer: &mut [i64]) -> Counted
    ensures checked { Checked program.now witness.now buffer.old result.answer buffer.new }
    ensures count_value { result.count ≡ front_count (final_values program.now witness.now) (answer_of result.answer) }
{
    if reading::word_within(witness, 0, TRACE_MARK, TRACE_MARK) {
        return replay::replay_counted(program, witness, buffer);
    }
    let answer = judge::judge(program, witness);
    Counted { answer, count: 0 }
}

// The answer alone. After an accepted trace the buffer's front holds the values at the failed assertion.
pub fn check(program: &[i32], witness: &[i32], buffer: &mut [i64]) -> Answer
    ensures { Checked program.now witness.now buffer.old result buffer.new }
{
    let counted = check_counted(program, witness, buffer);
    counted.answer
}

// How many values an accepted trace leaves in the buffer. With an empty buffer the answer is 13 at that number, unless it is 0.
pub fn value_count(program: &[i32], witness: &[i32]) -> usize
    ensures { result ≡ value_count program.now witness.now }
{
    let mut none = [0i64; 0];
    let answer = check(program, witness, &mut none);
    match answer {
        Answer::Safe(_) => 0,
        Answer::Trace(_) => 0,
        Answer::Refused(refusal) => {
            if refusal.number == Reason::BufferLength.number() {
                return refusal.place;
            }
            0
        }
    }
}
