// No code: the card rules and the host rules, what it is for a script to keep to them, and that every task of a session does.
#![tactic(auto)]
