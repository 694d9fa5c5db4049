// Document 01's wrong programs: specs/Wrong has the table, proofs/Refuted that none of them meets its contract. No
// code.
#![tactic(auto)]
