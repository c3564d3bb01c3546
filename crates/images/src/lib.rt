// An image put in for the columns of a row of words. What a column of the target becomes is worked out from the entailment's numbers where it is
// needed, and nothing of an image is stored.
#![tactic(auto)]

pub mod substitution;
pub mod used_columns;
