// Folds over a range of numbers: definitions and laws alone.
#![tactic(auto)]
