// Theorems about the calls that terminals make, from what the calls promise (specs).
#![tactic(auto)]
