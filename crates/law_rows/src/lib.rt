// Laws of what the rows say: the state stays well formed, and an answer's rows fit into its memory. No code, see specs/.
#![tactic(auto)]
