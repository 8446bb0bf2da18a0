// The dictionary as document 01 has it, without its memory: names, kinds, the state, each entry's answer, and the theorem on lists of calls.
// It holds no code: definitions are in specs/, laws and the theorem in proofs/.
#![tactic(auto)]
