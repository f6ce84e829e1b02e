// The image as a list of bytes: how long it is, and that reading and writing undo each other. Laws alone, in proofs/.
#![tactic(auto)]
