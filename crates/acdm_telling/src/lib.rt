//! The feed of a saved journal: what each of its entries says and changes, as lines of JSON. It is a
//! crate of its own so that it is proved while the sessions are, which `acdm_commands` waits for.
#![tactic(auto)]

mod judged;
mod telling;

pub use telling::tell_on;
