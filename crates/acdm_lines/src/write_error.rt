//! Why a text was not written.

use thiserror::Error;

/// Why a text was not written.
#[derive(Clone, Copy, Debug, PartialEq, Eq, Error)]
pub enum WriteError {
    /// There was no memory for it.
    #[error("no memory")]
    Memory,
    /// The writer failed.
    #[error("the writer failed")]
    Write,
}
