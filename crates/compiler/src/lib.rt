// What the compiled operators of compiler.rs build and mean: definitions in specs/, laws in proofs/. The code stands in the crate compiled.

#![tactic(auto)]
