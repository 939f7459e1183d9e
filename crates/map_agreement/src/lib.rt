// Demand 3 of Mapsforge maps: definitions and theorems, no code.
#![tactic(auto)]
