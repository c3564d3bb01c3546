// The line of an answer, put into a buffer from its front on. A number and the blank before it take at most 21 bytes, a value, its sign and
// the blank at most 21 as well: so the longest line, that of a trace with 16 values, has at most 5 + 21 + 16 * 21 + 1 = 363.
ghost use Rattle.std.specs.Prelude.{◌≡◌, [], ◌++◌, ◌+◌, ◌*◌, ◌≤◌, length, drop, Ok};
ghost use Rattle.words.specs.Answer.{safe, trace, refused};
ghost use Rattle.answers.specs.Answers.{answer_of, refusal_of};
ghost use Rattle.plan_text.specs.Lines.{digits, line_of, writing_line};
ghost use Rattle.plan_text.specs.Lines.{number as Lines·number, value as Lines·value, values_in};
ghost use Rattle.plan_text.specs.PushLaws.{Pushed};

use crate::byte_words;
use answers::{Answer, Refusal};

// Puts the bytes into the line from index `at` on, and answers where they end.
pub(crate) fn push(bytes: &[u8], line: &mut [u8], at: usize) -> usize
    requires { at + length bytes.now ≤ length line.old }
    ensures { Pushed line.old at bytes.now result line.new }
{
    for i in 0..bytes.len() {
        line[at + i] = bytes[i];
    }
    at + bytes.len()
}

fn push_digits(n: u64, line: &mut [u8], at: usize) -> usize
    requires { at + length (digits n) ≤ length line.old }
    ensures { Pushed line.old at (digits n) result line.new }
{
    let mut text = [0u8; 20];
    let count = io::decimal(n, &mut text);
    push(&text[..count], line, at)
}

// A blank and the number.
fn push_number(n: usize, line: &mut [u8], at: usize) -> usize
    requires { at + 21 ≤ length line.old }
    ensures pushed { Pushed line.old at (Lines·number n) result line.new }
    ensures upper_bound { result ≤ at + 21 }
{
    let blank = push(b" ", line, at);
    push_digits(n as u64, line, blank)
}

// A blank and the number, with its sign where it is negative.
fn push_value(x: i64, line: &mut [u8], at: usize) -> usize
    requires { at + 21 ≤ length line.old }
    ensures pushed { Pushed line.old at (Lines·value x) result line.new }
    ensures upper_bound { result ≤ at + 21 }
{
    let size = byte_words::magnitude(x);
    if x < 0 {
        let minus = push(b" -", line, at);
        return push_digits(size, line, minus);
    }
    let plain = push(b" ", line, at);
    push_digits(size, line, plain)
}

fn push_values(values: &[i64], line: &mut [u8], at: usize) -> usize
    requires { at + length values.now * 21 ≤ length line.old }
    ensures pushed { Pushed line.old at (values_in values.now) result line.new }
    ensures upper_bound { result ≤ at + length values.now * 21 }
{
    let mut end = at;
    for i in 0..values.len() {
        end = push_value(values[i], line, end);
    }
    end
}

fn safe_line(count: usize, line: &mut [u8]) -> usize
    requires { 363 ≤ length line.old }
    ensures { Pushed line.old 0 (line_of (safe count) []) result line.new }
{
    let word = push(b"safe", line, 0);
    let counted = push_number(count, line, word);
    push(b"\n", line, counted)
}

fn trace_line(steps: usize, values: &[i64], line: &mut [u8]) -> usize
    requires values_len_bound { length values.now ≤ 16 }
    requires in_bounds { 363 ≤ length line.old }
    ensures { Pushed line.old 0 (line_of (trace steps) values.now) result line.new }
{
    let word = push(b"trace", line, 0);
    let counted = push_number(steps, line, word);
    let valued = push_values(values, line, counted);
    push(b"\n", line, valued)
}

fn refused_line(refusal: Refusal, line: &mut [u8]) -> usize
    requires { 363 ≤ length line.old }
    ensures { Pushed line.old 0 (line_of (refused (refusal_of refusal)) []) result line.new }
{
    let word = push(b"refused", line, 0);
    let numbered = push_number(refusal.number, line, word);
    let placed = push_number(refusal.place, line, numbered);
    let lined = push_number(refusal.line, line, placed);
    push(b"\n", line, lined)
}

// The line of an answer, at the buffer's front; after a trace with the values. Answers how many bytes it has.
pub fn answer_line(answer: Answer, values: &[i64], line: &mut [u8]) -> usize
    requires values_len_bound { length values.now ≤ 16 }
    requires in_bounds { 363 ≤ length line.old }
    ensures value { result ≡ length (line_of (answer_of answer) values.now) }
    ensures line_after { line.new ≡ line_of (answer_of answer) values.now ++ drop result line.old }
{
    match answer {
        Answer::Safe(count) => safe_line(count, line),
        Answer::Trace(steps) => trace_line(steps, values, line),
        Answer::Refused(refusal) => refused_line(refusal, line),
    }
}

fn written_line(count: usize, line: &mut [u8]) -> usize
    requires { 363 ≤ length line.old }
    ensures { Pushed line.old 0 (writing_line (Ok count)) result line.new }
{
    let word = push(b"written", line, 0);
    let told = push_number(count, line, word);
    push(b"\n", line, told)
}

// The line of a writer's answer, at the buffer's front. Answers how many bytes it has.
pub fn writing_line(writing: Result<usize, Refusal>, line: &mut [u8]) -> usize
    requires { 363 ≤ length line.old }
    ensures value { result ≡ length (writing_line writing) }
    ensures line_after { line.new ≡ writing_line writing ++ drop result line.old }
{
    match writing {
        Ok(count) => written_line(count, line),
        Err(refusal) => refused_line(refusal, line),
    }
}
