// Laws on lists, numbers and tests that the kit lacks: no code, only specs/ and proofs/.
#![tactic(auto)]
