// What proofs of functions on a lent table share, in proofs/: no code.
#![tactic(auto)]
