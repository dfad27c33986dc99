// No code: the bench values of document 01, and the theorem that the definitions give them.
#![tactic(auto)]
