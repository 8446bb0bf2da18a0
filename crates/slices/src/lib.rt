// Lists of bytes, for every layer: definitions in specs/, laws in proofs/. This crate has no code.
#![tactic(auto)]
