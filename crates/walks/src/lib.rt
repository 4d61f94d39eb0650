// What walks of code by hand share: no code, only proofs/.
#![tactic(auto)]
