// Which lent memory stands for which state of the dictionary, what each entry promises over it, and the theorem on every list of calls.
// It holds no code: definitions are in specs/, laws and the theorem in proofs/.
#![tactic(auto)]
