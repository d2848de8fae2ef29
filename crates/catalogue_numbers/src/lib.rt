// The catalogue of a deposit's object by record numbers: which numbers each table has, and what they stand for. No code stands here.
#![tactic(auto)]
