// Demand 3 of the boundary's calls, over the record that a host keeps. Laws alone, in proofs/.
#![tactic(auto)]
