// Nothing runs here: demand 3 stands in specs/, and its proof in proofs/.
#![tactic(auto)]
