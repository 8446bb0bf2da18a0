// What two lists of calls have in common: lists that give numbers to the same names in two orders (Q-13), and lists of the same calls.
// It holds no code: definitions are in specs/, laws and theorems in proofs/.
#![tactic(auto)]
