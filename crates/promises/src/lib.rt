// What Tapuhzel promises, and that it holds: definitions and theorems alone.
#![tactic(auto)]
