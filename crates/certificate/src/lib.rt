// Demand 3: what is kept is alike to the whole list. It has theorems and no code.
#![tactic(auto)]
