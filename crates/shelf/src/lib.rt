// A pass over a word list that makes its graph from numbers, in specs/.
#![tactic(auto)]
