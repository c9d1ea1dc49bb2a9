// What `shelf` prints is what histories show, and demand 3 holds of each: no code, see specs/.
#![tactic(auto)]
