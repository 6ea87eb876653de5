// Theorems and no code: specs/ states them, proofs/ proves them.
#![tactic(auto)]
