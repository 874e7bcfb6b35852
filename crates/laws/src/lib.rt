// What is true of the definitions in `rules` is in specs/, and in proofs/ where it rests on a definition that an edit turns. No code stands here.
#![tactic(auto)]
