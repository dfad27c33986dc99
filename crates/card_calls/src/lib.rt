// No code: the course of a closing and of an opening keeps to the card rules.
#![tactic(auto)]
