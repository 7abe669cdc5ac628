// Demand 3, N4 and N5 in the words of the calls `open`, `step`, `trace`, `run`, `exclude` and `list`. No code.
#![tactic(auto)]
