// Whether a text begins with another, and whether it is just that, as definitions, with theorems that the library's comparisons of slices compute them. No code.
#![tactic(auto)]
