// Histories of the run's calls, and demand 3 of those that a camera makes. Laws alone, in proofs/.
#![tactic(auto)]
