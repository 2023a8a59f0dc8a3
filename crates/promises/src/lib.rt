// The promises over whole sessions, as theorems about the definitions that the contracts cite. No code.
#![tactic(auto)]
