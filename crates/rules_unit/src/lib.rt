// The unit's side has no code here: its rules are in specs/ and their proofs in proofs/.
#![tactic(auto)]
