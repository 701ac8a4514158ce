// Demand 3 of document 01: one claim over every list of calls. It is theorems alone, in proofs/.
#![tactic(auto)]
