// LCOV tracefiles: their form and what is read from them, as definitions, with instances and what holds of every run read, as theorems. No code.
#![tactic(auto)]
