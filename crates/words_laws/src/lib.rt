// No code: the theorems about the words of a session.
#![tactic(auto)]
