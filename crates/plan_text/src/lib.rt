// The text of a plan: the words that the bytes of a file spell, the bytes that spell words, and the line that is printed for an answer.
#![tactic(auto)]

pub mod answer_lines;
pub mod byte_words;
pub mod word_bytes;
