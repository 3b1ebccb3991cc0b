// The format of a session's lines as a whole, and what the reader of `lines` comes to: definitions and laws, and no code.
#![tactic(auto)]
