// Document 01's whole example of the report, computed from the definitions, and what the theorems say of it. No code, only proofs/.
#![tactic(auto)]
