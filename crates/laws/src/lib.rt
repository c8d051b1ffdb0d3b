// What the toolchain's libraries lack, in specs/. Nothing here is about word graphs.
#![tactic(auto)]
