// No code: for public functions of the crates below, an input, and two answers to it that the contract refuses.
#![tactic(auto)]
