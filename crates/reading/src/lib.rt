// What reading a word gives, and what is proved of it: definitions and laws, no code.
#![tactic(auto)]
