// No code: the table of `wrong` for public functions on words.
#![tactic(auto)]
