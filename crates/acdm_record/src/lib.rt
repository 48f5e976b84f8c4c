//! The record of a flight: 128 bytes, or 160 with the times of de-icing, that callers see as a map from field names to
//! values.
#![tactic(auto)]

mod fault;
mod field;
mod part;
mod record;
mod text;

pub use fault::RecordError;
pub use field::{Field, TextField};
pub use record::Record;
pub use text::Text;
