// What holds of the record numbers of an object that is not refused. No code stands here.
#![tactic(auto)]
