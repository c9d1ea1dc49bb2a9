// One interval: step D gives every stream what steps A to C hand out, inside its periods: no code, see specs/.
#![tactic(auto)]
