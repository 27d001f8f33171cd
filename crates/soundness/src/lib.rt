// What fair walks of a book's machine say of endless runs.
#![tactic(auto)]
