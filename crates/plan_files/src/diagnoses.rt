// The part of two files that an answer speaks of, printed: so that the diagnosis runs, in `worked_cases`.
ghost use Rattle.std.specs.Prelude.{◌≤◌, length};

use crate::file_bytes::load;
use plan_text::byte_words;
use std::io::Result;
use std::rt::Files;

fn print(rt: &impl Print, text: &[u8]) -> Result<()> {
    rt.write_all(text)
}

// A blank and the number, with its sign where it is negative.
fn print_signed(rt: &impl Print, x: i64) -> Result<()> {
    print(rt, b" ")?;
    if x < 0 {
        print(rt, b"-")?;
    }
    rt.print(byte_words::magnitude(x))
}

fn print_words(rt: &impl Print, words: &[i32]) -> Result<()> {
    for i in 0..words.len() {
        print_signed(rt, numbers::wide(words, i))?;
    }
    Ok(())
}

// The words of the part that the answer speaks of, as one line. There is no buffer, so that a trace of a program with values is refused with 13.
fn print_part<'a>(rt: &impl Print, program: &'a [i32], witness: &'a [i32]) -> Result<()> {
    let mut none = [0i64; 0];
    let answer = leukarion::check(program, witness, &mut none);
    print(rt, b"part")?;
    print_words(rt, leukarion::diagnosis(program, witness, answer))?;
    print(rt, b"\n")
}

// Puts a file's words at the front of `words`, and answers how many. Which words they are is left open, as which bytes the system reads is.
fn load_words(rt: &(impl Files + Eprint), path: &str, words: &mut [i32; 16384]) -> usize
    ensures { result ≤ length words.new }
{
    let mut bytes = [0u8; 65537];
    let count = load(rt, path, &mut bytes);
    byte_words::file_words(&bytes[..count], words)
}

// Checks the plan in two files, and prints the words of the part that the answer speaks of.
pub fn run_part(
    rt: &(impl Files + Print + Eprint),
    program_path: &str,
    witness_path: &str,
) -> Result<()> {
    let mut program = [0i32; 16384];
    let mut witness = [0i32; 16384];
    let n = load_words(rt, program_path, &mut program);
    let m = load_words(rt, witness_path, &mut witness);
    print_part(rt, &program[..n], &witness[..m])
}
