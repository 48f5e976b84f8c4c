//! The longest inputs with ample memory: nothing is answered that memory was refused. A check of a
//! crate's tests proves the crate once more, so they stand here.
#![tactic(auto)]

#[cfg(test)]
mod boards;
#[cfg(test)]
mod journals;
#[cfg(test)]
#[cfg(test)]
mod readers;
#[cfg(test)]
mod sessions;
#[cfg(test)]
mod texts;
