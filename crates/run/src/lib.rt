// The theorems on whole lists of calls: no code, only specs/ and proofs/. Rests on book, state, cycle, bounds and writing.
#![tactic(auto)]
