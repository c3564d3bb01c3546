// Signed 64-bit numbers: tests, sums and products whose sizes keep them within 64 bits. The functions are public for the crates above.
#![tactic(auto)]

ghost use Rattle.std.specs.Prelude.{◌≡◌, ◌+◌, ◌*◌, ◌^◌, ◌≤◌, ◌<◌, nat_abs, pos, ◌+ℤ◌, ◌*ℤ◌, length, get_or};
ghost use Rattle.std.specs.Int.Signed.{le_z};
ghost use Rattle.basics.specs.Integers.{eq_z};
ghost use Rattle.words.specs.RowWords.{constant_words, constant_of, constant_at};

const CONSTANT_UNIT: i64 = 1000000;

pub fn le64(x: i64, y: i64) -> bool
    ensures { result ≡ le_z x y }
{
    x <= y
}

pub fn same64(x: i64, y: i64) -> bool
    ensures { result ≡ eq_z x y }
{
    x == y
}

pub fn from_usize(n: usize) -> i64
    requires { n < 2 ^ 63 }
    ensures { result ≡ pos n }
{
    n as i64
}

// sum + a * b, which the sizes keep within 64 bits.
pub fn add_mul(sum: i64, a: i64, b: i64) -> i64
    requires { nat_abs sum + nat_abs a * nat_abs b < 2 ^ 63 }
    ensures { result ≡ sum +ℤ a *ℤ b }
{
    sum + a * b
}

// A word, widened.
pub fn wide(words: &[i32], i: usize) -> i64
    requires { i < length words.now }
    ensures is { result ≡ get_or words.now i (pos 0) }
    ensures small { nat_abs result ≤ 2 ^ 31 }
{
    words[i] as i64
}

// The constant that two words spell, the high one and the low one. Whatever they are, it is far from the ends of 64 bits.
pub fn constant_of(high: i32, low: i32) -> i64
    ensures { result ≡ constant_of high low }
{
    CONSTANT_UNIT * (high as i64) + (low as i64)
}

// The constant of the row at `at`.
pub fn constant_at(words: &[i32], at: usize) -> i64
    requires { at + constant_words ≤ length words.now }
    ensures { result ≡ constant_at words.now at }
{
    constant_of(words[at], words[at + 1])
}
