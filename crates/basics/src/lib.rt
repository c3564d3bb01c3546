// Laws of Booleans, lists and integers: see specs/.
#![tactic(auto)]
