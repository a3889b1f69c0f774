// A block of each format that has a proper telegram, as theorems about the definitions that the contracts of the calls cite.
#![tactic(auto)]
