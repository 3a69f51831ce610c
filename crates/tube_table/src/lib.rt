// The table T1 to T10 of the tube log: definitions and a theorem alone.
#![tactic(auto)]
