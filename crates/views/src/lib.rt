// Definitions and laws: what the cluster's memory stands for, and what a step makes of it, array by array.
#![tactic(auto)]
