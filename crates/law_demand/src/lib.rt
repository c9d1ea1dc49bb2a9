// Demand 3 over every list of calls, proved on the definitions of spec_demand: no code, see specs/.
#![tactic(auto)]
