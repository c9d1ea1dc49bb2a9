// Greedy service by earliest deadline under a capacity that varies with time: no code, see specs/.
#![tactic(auto)]
