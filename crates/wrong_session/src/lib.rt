// No code: the table of `wrong` for public functions on a session's parts.
#![tactic(auto)]
