// Linear rows, their weighted sums and substitution: see specs/.
#![tactic(auto)]
