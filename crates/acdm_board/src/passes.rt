//! The passes that a desk keeps for the sessions and roles that it is called for.
ghost use Rattle.std.specs.Prelude.{◌≡◌, ◌≤◌, IfOk};
ghost use Rattle.std.specs.Arc.{arc_value};

use acdm_milestones::Role;
use acdm_row::{Pass, Row};
use std::alloc::{AllocError, Global};
use std::marker::Model;
use std::sync::Arc;

// One for each of 64 sessions in each of six roles.
const MOST_PASSES: usize = 384;

/// Passes of one row, at most one for each session and role.
pub(crate) struct Passes {
    row: Arc<Row>,
    items: Vec<Pass>,
}

impl Drop for Passes {
    fn drop(self) {
        let Passes { row: _, items: _ } = self;
    }
}

impl Model for Passes {
    ghost use Rattle.std.specs.Prelude.{◌≡◌};
    ghost use Rattle.std.specs.List.{All};
    ghost use Rattle.std.specs.Arc.{arc_value};
    ghost use Rattle.acdm_row.specs.Views.{RowView};

    ghost Value = { RowView };

    ghost view = { λ p. arc_value p.row };

    ghost invariant = { λ p. All (λ q. q.row ≡ arc_value p.row) p.items.items };
}

impl Passes {
    /// None yet. It takes no memory.
    pub(crate) fn new(alloc: Global, row: Arc<Row>) -> Passes
        ensures { result ≡ arc_value row }
    {
        Passes {
            row,
            items: Vec::new(alloc),
        }
    }

    /// Takes the place of all of them. `Err` only where memory was refused.
    pub(crate) fn take_place(&mut self) -> Result<(), AllocError>
        ensures { self.new ≡ self.old }
    {
        self.items
            .reserve(MOST_PASSES.saturating_sub(self.items.len()))
    }

    // Where the pass of a session in a role stands.
    fn place(&self, session: u8, role: Role) -> Option<usize> {
        self.items
            .iter()
            .position(|pass| pass.session() == session && pass.role() == role)
    }

    /// The pass of a session in a role, which is kept no longer, or a new one. `Err` only where the
    /// row can't be shared once more.
    pub(crate) fn take(&mut self, session: u8, role: Role) -> Result<Pass, AllocError>
        requires session_given { 1 ≤ session }
        requires few_sessions { session ≤ 64 }
        ensures same { self.new ≡ self.old }
        ensures row { IfOk result (λ p. p.row ≡ self.old) }
        ensures session { IfOk result (λ p. p.session ≡ session) }
        ensures role { IfOk result (λ p. p.role ≡ role) }
    {
        if let Some(at) = self.place(session, role) {
            if at < self.items.len() {
                let pass = self.items.swap_remove(at);
                if pass.session() == session && pass.role() == role {
                    return Ok(pass);
                }
            }
        }
        self.row.pass(session, role)
    }

    /// Keeps a pass, where there is room for it.
    pub(crate) fn put(&mut self, pass: Pass)
        requires { pass.row ≡ self.old }
        ensures { self.new ≡ self.old }
    {
        let _ = self.items.push(pass);
    }
}
