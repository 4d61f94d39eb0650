// The packet book and its promises: no code, only specs/ and proofs/. Rests on flow, bucket and window; its table of cases on bounds too.
#![tactic(auto)]
