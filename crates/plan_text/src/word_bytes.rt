// The bytes that spell words, put into a buffer from its front on.
ghost use Rattle.std.specs.Prelude.{◌≡◌, ◌++◌, ◌+◌, ◌*◌, ◌%◌, ◌≤◌, length, drop};
ghost use Rattle.plan_text.specs.ByteWords.{words_of, bits_in, word_bytes, bytes_of};
ghost use Rattle.plan_text.specs.PushLaws.{Pushed};

use crate::answer_lines::push;

// The 32 bits that spell a signed number.
fn bits_in(word: i32) -> u32
    ensures { result ≡ bits_in word }
{
    if word < 0 {
        let below = -1 - word;
        4294967295 - (below as u32)
    } else {
        word as u32
    }
}

fn low_byte(n: u32) -> u8
    ensures { result ≡ n % 256 }
{
    (n % 256) as u8
}

// Puts a word's four bytes into `bytes` from index `at` on, the least significant first, and answers where they end.
fn push_word(word: i32, bytes: &mut [u8], at: usize) -> usize
    requires { at + 4 ≤ length bytes.old }
    ensures { Pushed bytes.old at (word_bytes word) result bytes.new }
{
    let bits = bits_in(word);
    let second = bits / 256;
    let third = second / 256;
    let fourth = third / 256;
    let four = [
        low_byte(bits),
        low_byte(second),
        low_byte(third),
        low_byte(fourth),
    ];
    push(&four, bytes, at)
}

// Puts the words' bytes at the front of `bytes`, and answers how many. They spell these words.
pub fn write_words(words: &[i32], bytes: &mut [u8]) -> usize
    requires { length words.now * 4 ≤ length bytes.old }
    ensures value { result ≡ length (bytes_of words.now) }
    ensures bytes_after { bytes.new ≡ bytes_of words.now ++ drop result bytes.old }
    ensures words_value { words_of (bytes_of words.now) ≡ words.now }
{
    let mut end = 0;
    for i in 0..words.len() {
        end = push_word(words[i], bytes, end);
    }
    end
}
