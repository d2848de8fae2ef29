// What patching and rewriting leave of a catalogue as it is lent. No code stands here.
#![tactic(auto)]
