// Worked cases of the definitions in model: rows that the checker computes. No code stands here.
#![tactic(auto)]
