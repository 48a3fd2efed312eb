// Walks, distance and the levels of a breadth-first search over any moves closed under inverse: no code, only specs/ and proofs/.
#![tactic(auto)]
