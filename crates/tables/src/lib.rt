// No code. What tables that we built are is in specs/; what each edit of them does is proved in proofs/.
#![tactic(auto)]
