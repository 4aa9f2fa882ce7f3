// The promise of the judge with terms, and the demands as theorems about it. There is no code here.
#![tactic(auto)]
