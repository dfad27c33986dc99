// No code: the table of `wrong` for public functions that take an answer or a call.
#![tactic(auto)]
