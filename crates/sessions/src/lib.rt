// Laws of what the lines of a session do and write, and no code.
#![tactic(auto)]
