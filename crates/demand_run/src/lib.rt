// No code: demand 3 is not empty. Events lead a fresh session to an open one, on a card and a host that keep the rules.
#![tactic(auto)]
