// What is promised of the engine as a whole, in specs/.
#![tactic(auto)]
