// Demand 3's two readings agree on what is spoken to the server: theorems over any line rules, in proofs/, no code.
#![tactic(auto)]
