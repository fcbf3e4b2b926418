// What is general stands in specs/: cases, tests below a bound, tables, lists made part by part, scans, writing into room, tables of
// refusals. It has no code.
#![tactic(auto)]
