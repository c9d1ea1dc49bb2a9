// The slots and runs of steps D and E, over any list of jobs: no code, see specs/.
#![tactic(auto)]
