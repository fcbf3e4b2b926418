// Request (xiii): the records of a chart, the five steps that mend them, and what holds of these, stand in specs/. It has no code.
#![tactic(auto)]
