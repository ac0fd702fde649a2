// What is demanded of files, and the worked examples: definitions in specs/, theorems in proofs/. No code.

#![tactic(auto)]
