// What the exported entries return: of one call, and of lists of calls, with demand 3 and Q-13 in these numbers.
// It holds no code: definitions are in specs/, the theorems in proofs/.
#![tactic(auto)]
