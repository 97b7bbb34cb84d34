// No code: `specs` says which steps may happen next and `proofs` what holds of their list.
#![tactic(auto)]
