// What every operation of factory.rs builds and means: definitions in specs/, laws in proofs/. The code stands in the crates factory_makers, factory_core,
// factory_bitvectors, factory_data and factory_helpers, a section of factory.rs each.

#![tactic(auto)]
