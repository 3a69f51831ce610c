// The replay machine and the record of demand 3: definitions and theorems alone.
#![tactic(auto)]
