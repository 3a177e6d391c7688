// The input of the program hits as a question, as definitions, and inputs with what they are parsed to, as theorems. No code.
#![tactic(auto)]
