// What is proved of windows with damaged bits, about the definitions that the contracts of the window calls cite.
#![tactic(auto)]
