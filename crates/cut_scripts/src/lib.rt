// Scripts that are cut and changed, with their answers: they compute from the definitions, in proofs/.

#![tactic(auto)]
