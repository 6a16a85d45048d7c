// What is true of the meaning: specs/. There is no code.
#![tactic(auto)]
