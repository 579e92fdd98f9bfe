// Lemmas on lists, tests and buffers; no code.
#![tactic(auto)]
