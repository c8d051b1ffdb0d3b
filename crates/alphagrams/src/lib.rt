// What alpha sets mean, in specs/.
#![tactic(auto)]
