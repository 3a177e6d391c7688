// A pair of runs by mutual partition: the way and the outcome of the call as definitions, with instances and what holds of every pair, as theorems. No code.
#![tactic(auto)]
