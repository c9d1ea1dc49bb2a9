// Lists, tests and sums that the definitions of document 01 are written with. No code, see specs/.
#![tactic(auto)]
