// Document 01's marked examples: specs/Marked has the table, proofs/Marked that every row comes out. No code.
#![tactic(auto)]
