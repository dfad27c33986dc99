// No code: the theorem of demand 3 over the functions of C linkage.
#![tactic(auto)]
