// No code: the table of `wrong` for public functions on tasks.
#![tactic(auto)]
