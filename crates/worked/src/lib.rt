// Worked cases: document 01's starred ones as a group, a whole table, a build of plain 3 of which the whole-build theorem is drawn, and document
// 02's price. No code, only specs/ and proofs/.
#![tactic(auto)]
