//! What the command line and the commands answer through their public calls. A check of a crate's
//! tests proves the crate once more, so they stand here.
#![tactic(auto)]

#[cfg(test)]
mod command_line;
#[cfg(test)]
mod commands;
#[cfg(test)]
mod partners;
#[cfg(test)]
mod place;
#[cfg(test)]
mod settings;
#[cfg(test)]
mod ticks;
