//! What lines and sessions are answered through public calls. A check of a crate's tests proves the
//! crate once more, so they stand here.
#![tactic(auto)]

#[cfg(test)]
mod jobs;
#[cfg(test)]
mod sessions;
