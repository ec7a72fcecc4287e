// What is proved, in one place: proofs/Claims.antt. No code.
#![tactic(auto)]
