// An entailment as a value: numbers and places in the words, from which premises, image and targets are worked out where they are needed.
// What it stands for is `meaning_of` in specs/Meaning.antt, and which values are good ones `EntailmentForm` in specs/Forms.antt.
#![tactic(auto)]

pub mod ops;

use words::StoredForm;

// What the target's columns become. `Assign` has the column and the place of its expression; `Entry` and `Called` have the place of the actuals.
// `Called` is for the rows of a callee's summary, which become premises.
#[derive(Clone, Copy)]
pub enum Image {
    Start,
    Path,
    Assign(usize, usize),
    Entry(usize),
    Return,
    Exit,
    Called(usize),
}

// What stands behind the disjunct's rows among the premises: nothing; a case of a condition: op, case, and the place of its expression; the rows
// of a summary's disjunct: their place and number, and the place of the actuals.
#[derive(Clone, Copy)]
pub enum Added {
    Nothing,
    Guard(usize, usize, usize),
    Summary(usize, usize, usize),
}

// k: the columns at entry, and as many now, of the path that is left; there are none at the start. The parameters and other locals are the
// callee's at a call, and the procedure's own at the start and at an exit.
#[derive(Clone, Copy)]
pub struct Shape {
    pub k: usize,
    pub globals: usize,
    pub parameters: usize,
    pub others: usize,
}

// `from` and `n` are the place and the number of the disjunct's rows in the row words; `place` and `count` those of the target's disjuncts,
// which have `width` columns. `form` is the one that these rows are stored in.
#[derive(Clone, Copy)]
pub struct Entailment {
    pub shape: Shape,
    pub columns: usize,
    pub from: usize,
    pub n: usize,
    pub added: Added,
    pub image: Image,
    pub place: usize,
    pub count: usize,
    pub width: usize,
    pub form: StoredForm,
}
