// No code. Walks beside writers, with caches: what is said is in specs/, and proved in proofs/.
#![tactic(auto)]
