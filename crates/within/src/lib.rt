// What a ceiling says of the judge's answers; no code.
#![tactic(auto)]
