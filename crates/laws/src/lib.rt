// Lemmas on tests, sums, counts and loops that know nothing of the project: no code, only specs/ and proofs/.
#![tactic(auto)]
