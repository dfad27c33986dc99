// What a call and an answer leave of the session's bytes: `specs/Left.antt`.
#![tactic(auto)]
