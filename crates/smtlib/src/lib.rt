// SMT-LIB: its definitions of bitvectors in specs/, and their laws in proofs/. The code stands in the crates bitvec and bitvec_closures.

#![tactic(auto)]
