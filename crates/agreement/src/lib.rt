// That chart and derived book agree: theorems alone, in specs/.
#![tactic(auto)]
