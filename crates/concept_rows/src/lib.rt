// A concept written as rows: definitions in specs/, laws of the rows that the station writes in proofs/. No code.
#![tactic(auto)]
