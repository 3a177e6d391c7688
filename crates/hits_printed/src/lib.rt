// What the program hits prints, as theorems: the text of the listing's input, which refusals can be printed, and what is printed if a read fails.
// No code.
#![tactic(auto)]
