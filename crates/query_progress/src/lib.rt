// A call with many questions under way: what it comes to from what is written and the questions still to come. Definitions and laws only.
#![tactic(auto)]
