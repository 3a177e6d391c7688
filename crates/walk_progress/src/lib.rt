// A question under way: what it comes to from what is written and what its walk is still to do. Definitions and laws only.
#![tactic(auto)]
