// The book's machine.
#![tactic(auto)]
