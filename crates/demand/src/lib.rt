// No code: the theorem of demand 3, one claim about every list of calls.
#![tactic(auto)]
