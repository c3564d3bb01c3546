// Trimming: what of a certificate is used, and what is left of it and of its witnesses: see specs/.
#![tactic(auto)]
