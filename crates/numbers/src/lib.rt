// What word numbers mean, in specs/.
#![tactic(auto)]
