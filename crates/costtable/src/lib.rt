// The cost table of a log; it has definitions and laws, no code: document 02, Paper 10.
#![tactic(auto)]
