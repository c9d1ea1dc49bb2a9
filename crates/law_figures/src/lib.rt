// Theorems alone: what the figures of looking ahead show of a table, from one end to the next.
#![tactic(auto)]
