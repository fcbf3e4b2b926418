// Full against smaller derived book: theorems alone.
#![tactic(auto)]
