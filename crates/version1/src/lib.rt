// Version 1 as it was before there were halves: its opening, verdict and demand 3, and that they stay: definitions and laws, no code.
#![tactic(auto)]
