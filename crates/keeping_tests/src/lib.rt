//! How a journal is kept for sessions that share a keeper, through the public calls of `acdm_keeping`:
//! what no clause can say of writers and threads. A check of a crate's tests proves the crate once more,
//! so they stand here.
#![tactic(auto)]

#[cfg(test)]
mod confirming;
#[cfg(test)]
mod crash;
#[cfg(test)]
mod files;
#[cfg(test)]
mod following;
#[cfg(test)]
mod sharing;
#[cfg(test)]
mod term;
