// Lists, sums over them and facts of their elements: no code, see specs/.
#![tactic(auto)]
