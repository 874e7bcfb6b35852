// What is true of the examples is in specs/, and in proofs/ what rests on it. No code stands here.
#![tactic(auto)]
