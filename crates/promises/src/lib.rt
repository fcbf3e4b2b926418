// The demands as theorems about the public calls, in specs/.
#![tactic(auto)]
