// The worked examples of document 01, computed on the definitions that the contracts cite. It holds no code.
#![tactic(auto)]
