// Looking ahead is exact: it says yes exactly where an assignment of the coming slots serves the minimums: no code, see specs/.
#![tactic(auto)]
