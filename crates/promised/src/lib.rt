// Every clause of every promise, written out once more above the record that has it. No code, only proofs/.
#![tactic(auto)]
