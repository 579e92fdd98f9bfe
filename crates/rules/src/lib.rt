// The papers as definitions; no code.
#![tactic(auto)]
