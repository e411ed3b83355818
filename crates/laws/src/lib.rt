// No code: the definitions and laws that more than one crate cites stand in specs/ and proofs/.
#![tactic(auto)]
