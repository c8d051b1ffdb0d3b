// An evening of words in play: what calls one after the other over one record answer, in specs/.
#![tactic(auto)]
