// That columns and records stand for the same candidates after every step is said in specs/ and proved in proofs/. No code stands here.
#![tactic(auto)]
