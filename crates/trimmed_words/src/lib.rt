// Trimming over the words: what is refused, what is written, and what that is: see specs/.
#![tactic(auto)]
