// The meaning of the reader's stream: definitions and their laws, and no code.
#![tactic(auto)]
