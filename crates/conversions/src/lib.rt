// The two forms of a certificate, written as words, and the conversion of each to the other: see specs/.
#![tactic(auto)]
