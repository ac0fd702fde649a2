// Releases one after another: definitions in specs/, theorems in proofs/. No code.

#![tactic(auto)]
