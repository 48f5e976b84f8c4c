//! Why a command is refused.
ghost use Rattle.std.specs.Prelude.{◌≡◌};
ghost use Rattle.acdm_milestones.specs.Codes.{refusal_code};

/// Why the board refuses a command.
#[derive(Clone, Copy, Debug, PartialEq, Eq)]
pub enum Refusal {
    /// 201: the role does not own the action.
    NotOwner,
    /// 202: the flight is not on the board.
    UnknownFlight,
    /// 203: a milestone that it needs was not reached.
    MissingMilestone,
    /// 204: a milestone that bars it was reached.
    Barred,
    /// 205: TOBT or TSAT is needed and not set.
    NotSet,
    /// 206: a time would stand before the time that it follows.
    TimeOrder,
    /// 207: the flight has its schedule and its flight plan already.
    AlreadyPlanned,
    /// 503: the board has as many flights as it takes.
    FullBoard,
    /// 321: there is no program in the slot.
    EmptySlot,
    /// 322: the program was checked against other signatures than the board's.
    OtherSignatures,
    /// 323: the program was checked beside records of another length than the board's.
    OtherLength,
    /// 324: the records of the board have layout 2 already.
    AlreadyMigrated,
    /// 325: the records of the board have layout 1, which has no times of de-icing.
    FirstLayout,
    /// 599, which no reply has: an oracle left a question of the report's programs without an
    /// answer.
    Unanswered,
}

impl Refusal {
    /// The number of the refusal in a reply.
    pub fn code(self) -> u16
        ensures { result ≡ refusal_code self }
    {
        match self {
            Refusal::NotOwner => 201,
            Refusal::UnknownFlight => 202,
            Refusal::MissingMilestone => 203,
            Refusal::Barred => 204,
            Refusal::NotSet => 205,
            Refusal::TimeOrder => 206,
            Refusal::AlreadyPlanned => 207,
            Refusal::FullBoard => 503,
            Refusal::EmptySlot => 321,
            Refusal::OtherSignatures => 322,
            Refusal::OtherLength => 323,
            Refusal::AlreadyMigrated => 324,
            Refusal::FirstLayout => 325,
            Refusal::Unanswered => 599,
        }
    }
}
