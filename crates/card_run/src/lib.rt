// No code: a card and a host that keep the rules, with an opening run on them to a good end.
#![tactic(auto)]
