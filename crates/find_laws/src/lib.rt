// What the look-up in the function table of an accepted load finds. No code stands here.
#![tactic(auto)]
