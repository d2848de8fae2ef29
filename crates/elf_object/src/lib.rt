// Laws of a file's view. No code stands here.
#![tactic(auto)]
