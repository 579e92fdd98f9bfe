// Before and after has no code here: its rules are in specs/ and their proofs in proofs/.
#![tactic(auto)]
