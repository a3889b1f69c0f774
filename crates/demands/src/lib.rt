// The demands, as theorems about the definitions that the contracts of the calls cite.
#![tactic(auto)]
