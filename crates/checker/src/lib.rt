// The check of a program and a certificate or a trace: its answer, the result buffer afterwards, and the diagnosis: see specs/.
#![tactic(auto)]
