// What a replay owes, whatever its code is. There is no code here.
#![tactic(auto)]
