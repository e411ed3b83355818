// Plans: the rounds and orders that the check judges, the published definition that they are to meet, and that the two agree. It has theorems and no code.
#![tactic(auto)]
