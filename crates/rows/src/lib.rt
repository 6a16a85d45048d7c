// The operation on rows: specs/. There is no code.
#![tactic(auto)]
