// That the Result of a call is told by the flat record that its contract speaks of, so that the contract settles it. Laws alone, in proofs/.
#![tactic(auto)]
