// What document 01's table of answers says, and how much one octet writes: theorems about the session's definitions,
// no code.
#![tactic(auto)]
