// No code: the starred examples of the document stand in specs/, and their one theorem in proofs/.
#![tactic(auto)]
