// Laws of an ELF file's definitions. No code stands here.
#![tactic(auto)]
