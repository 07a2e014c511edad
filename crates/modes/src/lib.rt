// Session modes over the deck function: definitions (specs/) and their theory (proofs/). The code of the modes stands in the crates above.
#![tactic(auto)]
