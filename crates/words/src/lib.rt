// Words of the input files, ranges, rows of words and tests in their order: see specs/.
#![tactic(auto)]

// The stored forms of a certificate: document 01's, and that of document 02, CR 9, "in which each row of an entry .. is its constant, a count, ..
// and two parallel arrays". Definitions and code have this type in common.
#[derive(Clone, Copy)]
pub enum StoredForm {
    Dense,
    Sparse,
}
