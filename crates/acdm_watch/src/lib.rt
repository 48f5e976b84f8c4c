//! A watch over a row of cells: what it has seen, and the board of it.
#![tactic(auto)]

mod checks;
mod meet;
mod sight;
mod watch;
mod watched;

pub use meet::Meet;
pub use sight::Sight;
pub use watch::Watch;
pub use watched::Watched;
