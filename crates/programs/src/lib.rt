// Linear Programs: their words, tests 1 to 3, statements, states, steps and runs: see specs/.
#![tactic(auto)]
