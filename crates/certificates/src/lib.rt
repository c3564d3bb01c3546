// Certificates: their words, tests 4 to 8, entailments and witnesses, and demand 3: see specs/.
#![tactic(auto)]
