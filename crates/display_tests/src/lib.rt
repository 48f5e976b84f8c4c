//! What displays are sent, through the public calls of `acdm_displays`: what no clause can say of
//! readers, writers, connections and threads. A check of a crate's tests proves the crate once more, so
//! they stand here.
#![tactic(auto)]

#[cfg(test)]
mod browsing;
#[cfg(test)]
mod connecting;
#[cfg(test)]
mod feeding;
#[cfg(test)]
mod following;
#[cfg(test)]
mod kept;
#[cfg(test)]
mod naming;
#[cfg(test)]
mod resuming;
