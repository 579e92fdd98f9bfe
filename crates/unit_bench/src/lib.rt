// A run of calls of master and unit: a statement in specs/ and its proof in proofs/, and no code.
#![tactic(auto)]
