// A certificate's words laid out in order, in either stored form: see specs/.
#![tactic(auto)]
