// The words of a program, read: its sizes, the places that follow from them, its rows, and the procedure of each vertex.
// The functions are public for the crates above. What they require holds for a program that passes test 1; what the table of procedures
// needs, for one that passes test 2; and what is read of statements without a test, for one that has the form.
#![tactic(auto)]

pub mod inside;
pub mod kinds;
pub mod places;
pub mod procedures;
pub mod readers;
pub mod statements;
