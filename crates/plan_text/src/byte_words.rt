// The words that bytes spell, and the size of a signed number.
ghost use Rattle.std.specs.Prelude.{◌≡◌, ◌++◌, ◌+◌, ◌*◌, ◌≤◌, min, length, take, drop, nat_abs};
ghost use Rattle.plan_text.specs.ByteWords.{word_of, bits_of, word_at, words_of, file_words};

fn wide(x: u8) -> u32
    ensures { result ≡ x }
{
    x as u32
}

// The signed number that 32 bits spell.
fn signed(bits: u32) -> i32
    ensures { result ≡ word_of bits }
{
    if bits < 2147483648 {
        bits as i32
    } else {
        let below = (4294967295 - bits) as i32;
        -1 - below
    }
}

// The word of four bytes, the least significant first.
fn word_of(a: u8, b: u8, c: u8, d: u8) -> i32
    ensures { result ≡ word_of (bits_of a b c d) }
{
    signed(wide(a) + wide(b) * 256 + wide(c) * 65536 + wide(d) * 16777216)
}

// The word that begins at byte 4 * i.
fn word_at(bytes: &[u8], i: usize) -> i32
    requires { i * 4 + 4 ≤ length bytes.now }
    ensures { result ≡ word_at bytes.now i }
{
    let at = i * 4;
    word_of(bytes[at], bytes[at + 1], bytes[at + 2], bytes[at + 3])
}

fn least(a: usize, b: usize) -> usize
    ensures { result ≡ min a b }
{
    if a < b { a } else { b }
}

// Puts the bytes' words at the front of `words`, as many as are whole and find a place there, and answers how many.
pub fn read_words(bytes: &[u8], words: &mut [i32]) -> usize
    ensures value { result ≡ min (length (words_of bytes.now)) (length words.old) }
    ensures words_after { words.new ≡ take result (words_of bytes.now) ++ drop result words.old }
{
    let count = least(bytes.len() / 4, words.len());
    for i in 0..count {
        words[i] = word_at(bytes, i);
    }
    count
}

// The same for the bytes of a file, of which there are at most 65,536, and which are whole words; else there is none.
pub fn file_words(bytes: &[u8], words: &mut [i32; 16384]) -> usize
    ensures value { result ≡ length (file_words bytes.now) }
    ensures words_after { words.new ≡ file_words bytes.now ++ drop result words.old }
{
    if 65536 < bytes.len() {
        return 0;
    }
    if bytes.len() % 4 != 0 {
        return 0;
    }
    read_words(bytes, words)
}

// A number's size.
pub fn magnitude(x: i64) -> u64
    ensures { result ≡ nat_abs x }
{
    if x < 0 {
        let below = -1 - x;
        below as u64 + 1
    } else {
        x as u64
    }
}
