// The plan of an opening: its course in `specs/Opening.antt`, the plan that the code follows in `specs/Plan.antt`, and in `proofs/` that the plan leads where the course goes.
#![tactic(auto)]
