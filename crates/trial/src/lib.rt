// What is promised of a fresh instruction, and of a container of one that ends: definitions and laws, no code.
#![tactic(auto)]
