// Where each run of a walk stands, by the rows of positions and of keys. Definitions and laws only.
#![tactic(auto)]
