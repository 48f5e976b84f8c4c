//! What the desk, its journal and watches over it answer through their public calls: the tests of
//! `acdm_board`, `acdm_journal` and `acdm_watch`. A check of a crate's tests proves the crate once
//! more, so they stand here.
#![tactic(auto)]

#[cfg(test)]
mod board;
#[cfg(test)]
mod by_value;
#[cfg(test)]
mod embedding;
#[cfg(test)]
mod fixture;
#[cfg(test)]
mod journal;
#[cfg(test)]
mod watch;
