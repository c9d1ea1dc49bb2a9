// What a list of calls gives, document 01: histories, admissions, assignments, and the statement of demand 3. No code, see specs/.
#![tactic(auto)]
