// What the plans do to tables that we built: laws only, no code.
#![tactic(auto)]
