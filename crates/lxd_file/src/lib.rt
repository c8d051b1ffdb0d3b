// An LXD file: its bytes and the words that are read from them, in specs/.
#![tactic(auto)]
