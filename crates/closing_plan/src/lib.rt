// The plan of a closing: its course in `specs/Closing.antt`, the plan that the code follows in `specs/Plan.antt`, and in `proofs/` that the plan leads where the course goes.
#![tactic(auto)]
