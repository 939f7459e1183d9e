// Demand 3 of programs in other languages, from the contracts of the exported functions: definitions and theorems, no code.
#![tactic(auto)]
