// The limits of the program hits (docs/SPECIFICATION.md, 'The program hits'), each under one name, as definitions. No code.
#![tactic(auto)]
