// What the rules give at full size: a table of telegrams, and the largest event; no code.
#![tactic(auto)]
