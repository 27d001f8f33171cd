// Examples of calls on a book, and of console lines.
#![tactic(auto)]

#[cfg(test)]
mod books;
#[cfg(test)]
mod declares;
#[cfg(test)]
mod lines;
#[cfg(test)]
mod takes;
