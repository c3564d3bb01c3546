// The check of two files, told in one line. `plan_line` makes the line from the files' bytes, and its contract says which one; no contract can
// say what a call of the system reads or writes.
#![tactic(auto)]

ghost use Rattle.std.specs.Prelude.{◌≡◌, ◌++◌, ◌≤◌, length, drop};
ghost use Rattle.plan_files.specs.PlanLines.{check_line, plan_line};

use plan_text::{answer_lines, byte_words};
use std::io::Result;
use std::rt::Files;

mod diagnoses;
pub mod file_bytes;

pub use diagnoses::run_part;
use file_bytes::load;

// The line of the answer to a program and a witness, at the buffer's front.
fn check_line(program: &[i32], witness: &[i32], line: &mut [u8]) -> usize
    requires { 363 ≤ length line.old }
    ensures value { result ≡ length (check_line program.now witness.now) }
    ensures line_after { line.new ≡ check_line program.now witness.now ++ drop result line.old }
{
    let mut values = [0i64; 16];
    let checked = leukarion::check_counted(program, witness, &mut values);
    let answer = checked.answer;
    let count = checked.count;
    answer_lines::answer_line(answer, &values[..count], line)
}

// The line of the plan whose two files have these bytes, at the buffer's front. Answers how many bytes it has.
pub fn plan_line(program: &[u8], witness: &[u8], line: &mut [u8]) -> usize
    requires { 363 ≤ length line.old }
    ensures value { result ≡ length (plan_line program.now witness.now) }
    ensures line_after { line.new ≡ plan_line program.now witness.now ++ drop result line.old }
{
    let mut program_words = [0i32; 16384];
    let mut witness_words = [0i32; 16384];
    let n = byte_words::file_words(program, &mut program_words);
    let m = byte_words::file_words(witness, &mut witness_words);
    check_line(&program_words[..n], &witness_words[..m], line)
}

// Checks the plan in two files, and prints its line.
pub fn run(
    rt: &(impl Files + Print + Eprint),
    program_path: &str,
    witness_path: &str,
) -> Result<()> {
    let mut program = [0u8; 65537];
    let mut witness = [0u8; 65537];
    let mut line = [0u8; 363];
    let n = load(rt, program_path, &mut program);
    let m = load(rt, witness_path, &mut witness);
    let count = plan_line(&program[..n], &witness[..m], &mut line);
    rt.write_all(&line[..count])
}
