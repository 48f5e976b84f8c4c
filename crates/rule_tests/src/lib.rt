//! The rules of the board, by rows whose replies come from the rules and not from the program. A check
//! of a crate's tests proves the crate once more, so they stand here.
#![tactic(auto)]

#[cfg(test)]
#[cfg(test)]
mod rows;
