//! Rows of which a watch may be had.
ghost use Rattle.std.specs.Prelude.{◌≡◌, [], IfOk};
ghost use Rattle.std.specs.Arc.{arc_value};
ghost use Rattle.acdm_row.specs.Views.{RowView};

use crate::watch::Watch;
use acdm_row::Row;
use std::alloc::AllocError;
use std::sync::Arc;

/// What may be watched: a row that is shared, as that of a desk.
pub trait Watched {
    /// The row.
    ghost row: { Self → RowView };

    /// A watch over it that has seen nothing. `Err` only where memory was refused.
    fn watch(&self) -> Result<Watch, AllocError>
        ensures row { IfOk result (λ w. w.row ≡ row self.now) }
        ensures empty { IfOk result (λ w. w.seen ≡ []) };
}

impl Watched for Arc<Row> {
    ghost row = { arc_value };

    fn watch(&self) -> Result<Watch, AllocError> {
        Watch::new(self.alloc(), self)
    }
}
