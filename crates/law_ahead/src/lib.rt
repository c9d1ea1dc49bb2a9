// Looking ahead says yes exactly where there is room, and every call keeps a table well formed: no code, see specs/.
#![tactic(auto)]
