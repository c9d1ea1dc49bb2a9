// The rules of document 01 as definitions, and its worked cases as a theorem: no code, see specs/.
#![tactic(auto)]
