// Demand 3 of the mission: what equal weighting shares out, said over whole numbers. Theorems on the sharing crate's definitions; no code.
#![tactic(auto)]
