//! What the crates of BPF answer through their public calls. A check of a crate's tests proves the
//! crate once more, so they stand here.
#![tactic(auto)]

#[cfg(test)]
mod decode;
#[cfg(test)]
mod explain;
#[cfg(test)]
mod fixtures;
#[cfg(test)]
mod helpers;
#[cfg(test)]
mod lengths;
#[cfg(test)]
mod machine;
#[cfg(test)]
mod places;
#[cfg(test)]
mod programs;
#[cfg(test)]
mod states;
#[cfg(test)]
mod verifier;
