// The source's own predicates over our memory, and that our contracts give what its contracts promise: laws only, no code.
#![tactic(auto)]
