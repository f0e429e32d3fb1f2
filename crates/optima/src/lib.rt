// The mathematics of level bases: what no single step betters, nothing betters.
#![tactic(auto)]
