// No code: `proofs` holds what the stores of one step make of the line in the arrays.
#![tactic(auto)]
