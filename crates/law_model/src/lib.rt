// Laws of what the requests may change: intervals, names, openings, records. No code, see specs/.
#![tactic(auto)]
