// A reader of witness words: it holds the words and the place of the next unread one, and moves on as it is read from.
// The functions over it are thin: the reading itself is `read_at`, of one word, and `multipliers_at`, of a share's multipliers, over a slice
// and a place.
ghost use Rattle.std.specs.Prelude.{◌≡◌, ◌≤◌, length, drop};
ghost use Rattle.words.specs.Limits.{most_multiplier};
ghost use Rattle.words.specs.Words.{within};
ghost use Rattle.certificates.specs.Judgement.{read_constant, read_coefficient, read_row};
ghost use Rattle.entailment_judge.specs.WitnessReader.{next_word, read_at, reader_at, moved_on, next_multipliers, multipliers_at, moved_past, word_in};
ghost use Rattle.entailment_judge.specs.Answers.{after_of};
ghost use Rattle.entailment_judge.specs.Sides.{splits_at};

const MOST_MULTIPLIER: i32 = 1000;

const COEFFICIENT_LIMIT: usize = 1000;

#[derive(Drop)]
pub struct Reader<'a> {
    pub words: &'a [i32],
    pub at: usize,
}

// The word at a place, where one is left there, and the place after it.
#[derive(Drop)]
pub struct ReadWord {
    pub next: Option<i32>,
    pub at: usize,
}

// A word as a number, and the place after it.
#[derive(Clone, Copy)]
pub struct ReadNumber {
    pub number: usize,
    pub at: usize,
}

// The word at a place.
pub fn read_at(words: &[i32], at: usize) -> ReadWord
    ensures { result ≡ read_at words.now at }
{
    if at < words.len() {
        ReadWord {
            next: Some(words[at]),
            at: at + 1,
        }
    } else {
        ReadWord { next: None, at }
    }
}

// A reader of these words, from a place on.
pub fn new<'a>(words: &'a [i32], at: usize) -> Reader<'a>
    ensures { result ≡ reader_at words.entry at }
{
    Reader { words, at }
}

// Reads one word, where one is left: the reader moves on past it.
pub fn next_word<'r, 'a>(reader: &'r mut Reader<'a>) -> Option<i32>
    ensures { (result ≡ next_word reader.old.words.now reader.old.at) × (reader.new ≡ moved_on reader.old) }
{
    let got = read_at(reader.words, reader.at);
    reader.at = got.at;
    got.next
}

// The word at a place, read by a reader that starts there: plain parameters, for callers that hold no reader.
pub fn read_on<'a>(words: &'a [i32], at: usize) -> ReadWord
    ensures { result ≡ read_at words.now at }
{
    let mut reader = new(words, at);
    let next = next_word(&mut reader);
    ReadWord {
        next,
        at: reader.at,
    }
}

// A word is one of 0..=1,000.
fn is_multiplier(x: i32) -> bool
    ensures { result ≡ within 0 most_multiplier x }
{
    (0 <= x) & (x <= MOST_MULTIPLIER)
}

// The place after the n multipliers at a place, where all are there and in their range. Whether all are there is asked once, and no turn of the loop
// ends it, so that several words are tested at a time.
pub fn multipliers_at(words: &[i32], at: usize, n: usize) -> Option<usize>
    ensures { result ≡ multipliers_at words.now at n }
{
    if words.len() < at {
        return None;
    }
    if words.len() - at < n {
        return None;
    }
    let mut all = true;
    for i in 0..n {
        let one = is_multiplier(words[at + i]);
        all = all & one;
    }
    if all {
        let past = at + n;
        return Some(past);
    }
    None
}

// Reads n multipliers: the reader moves on past them where all are there and in their range, and stays where one isn't.
pub fn next_multipliers<'r, 'a>(reader: &'r mut Reader<'a>, n: usize) -> bool
    ensures { (result ≡ next_multipliers reader.old.words.now reader.old.at n) × (reader.new ≡ moved_past n reader.old) }
{
    let past = multipliers_at(reader.words, reader.at, n);
    if let Some(after) = past {
        reader.at = after;
        return true;
    }
    false
}

// The place after the n multipliers at a place, read by a reader that starts there: plain parameters, for callers that hold no reader.
pub fn read_multipliers<'a>(words: &'a [i32], at: usize, n: usize) -> Option<usize>
    ensures { result ≡ multipliers_at words.now at n }
{
    let mut reader = new(words, at);
    let all = next_multipliers(&mut reader, n);
    if all {
        return Some(reader.at);
    }
    None
}

// The word at a place and the place after it, where it is there and lies within low..=high.
pub fn word_in(words: &[i32], at: usize, low: usize, high: usize) -> Option<ReadNumber>
    ensures { result ≡ word_in words.now at low high }
{
    let read = read_on(words, at);
    let next = read.next;
    let x = next?;
    let number = reading::nat_of(x)?;
    if number < low {
        return None;
    }
    if high < number {
        return None;
    }
    Some(ReadNumber {
        number,
        at: read.at,
    })
}

// A witness begins here with −1: it splits.
pub(crate) fn splits(w: &[i32], at: usize) -> bool
    requires { at ≤ length w.now }
    ensures { result ≡ splits_at (drop at w.now) }
{
    let read = read_on(w, at);
    let next = read.next;
    match next {
        Some(x) => numbers::same64(x as i64, -1),
        None => false,
    }
}

// The place after the constant at a place; there is none where one of its words is missing, or they spell none within its limit.
fn constant_in(w: &[i32], at: usize) -> Option<usize>
    ensures { result ≡ after_of w.now (read_constant (drop at w.now)) }
{
    let first = read_on(w, at);
    let high = first.next;
    let x = high?;
    let second = read_on(w, first.at);
    let low = second.next;
    let y = low?;
    if reading::is_constant(x, y) {
        return Some(second.at);
    }
    None
}

// The place after the coefficient at a place; there is none where it is missing or beyond its limit.
fn coefficient_in(w: &[i32], at: usize) -> Option<usize>
    ensures { result ≡ after_of w.now (read_coefficient (drop at w.now)) }
{
    let read = read_on(w, at);
    let next = read.next;
    let x = next?;
    if reading::is_small(x, COEFFICIENT_LIMIT) {
        return Some(read.at);
    }
    None
}

// The place after the row at a place, of so many columns; there is none where a word of it is missing or beyond its limit.
pub(crate) fn row_in(w: &[i32], at: usize, columns: usize) -> Option<usize>
    requires { at ≤ length w.now }
    ensures { result ≡ after_of w.now (read_row columns (drop at w.now)) }
{
    let first = constant_in(w, at)?;
    let mut next = first;
    for i in 0..columns {
        let past = coefficient_in(w, next)?;
        next = past;
    }
    Some(next)
}
