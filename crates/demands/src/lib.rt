// Admitted logs, and demands 2 and 3 over what the calls promise: definitions and theorems; there is no code.
#![tactic(auto)]
