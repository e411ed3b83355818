// The scan rule and its laws: definitions and theorems alone.
#![tactic(auto)]
