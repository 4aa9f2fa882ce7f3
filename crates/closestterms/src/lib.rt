// The promise of the call for the closest order with terms, and Paper 10's sentences about it. There is no code here.
#![tactic(auto)]
