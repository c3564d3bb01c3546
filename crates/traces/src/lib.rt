// Traces: their words, tests 4 and 9 to 14, and the replay: see specs/.
#![tactic(auto)]
