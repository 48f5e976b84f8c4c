//! The rule of a cell that tells how many entries are kept.

use atomic_table::{Join, Split};
use crossbeam_utils::atomic::seq_cell::{Pass, RuledSeqCell};
use crossbeam_utils::rule::{Outcome, Protocol};

/// What a pass knows: that of a keeper how many entries are kept, that of a receipt that so many are at
/// least. No value of it is made.
pub struct Knowledge {
    pub keeps: bool,
    pub count: u64,
    pub claim: u64,
}

/// No receipt claims more than the one keeper keeps.
pub struct KeptRule;

impl Protocol<[u64; 1], Knowledge> for KeptRule {
    ghost use Rattle.acdm_keeping.specs.Knowing.{Counted, knows};

    ghost holds = { Counted };

    ghost first = { knows 0 };
}

/// The keeper says how many are kept now.
pub(crate) struct Raises;

impl Outcome<[u64; 1], Knowledge> for Raises {
    ghost use Rattle.acdm_keeping.specs.Knowing.{Raised};

    ghost then = { Raised };
}

/// The keeper compares a receipt with that.
pub(crate) struct Compares;

impl Outcome<[u64; 1], Knowledge> for Compares {
    ghost use Rattle.acdm_keeping.specs.Knowing.{Compared};

    ghost then = { Compared };
}

/// A receipt is cut off, or taken in to be compared.
pub(crate) struct Receipts;

impl Split<Knowledge> for Receipts {
    ghost use Rattle.acdm_keeping.specs.Knowing.{receipt_of};

    ghost left = { λ v. v };

    ghost right = { receipt_of };
}

impl Join<Knowledge> for Receipts {
    ghost use Rattle.acdm_keeping.specs.Knowing.{claims, compared};

    ghost both = { compared };

    ghost spent = { claims 0 };
}

/// A cell that tells how many entries are kept.
pub(crate) type Cell = RuledSeqCell<[u64; 1], Knowledge, KeptRule, 1>;

/// A pass of it.
pub(crate) type CountPass = Pass<[u64; 1], Knowledge>;
