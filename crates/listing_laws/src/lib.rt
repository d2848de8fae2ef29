// What a load leaves in the lent tables gives the text of its listing, and how long that can be. No code stands here.
#![tactic(auto)]
