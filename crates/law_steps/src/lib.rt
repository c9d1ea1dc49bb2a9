// Laws of the definitions of document 01, which later proofs cite: no code, see specs/.
#![tactic(auto)]
