//! The law of a kept journal and a crash. The function does nothing when it runs; its contract is the law.
ghost use Rattle.acdm_commands.specs.Resumed.{KeptIsResumed};

/// What a crash leaves at any moment of `Keeper::keep` is resumed by `restore`, with all entries that were kept before:
/// the clauses `any_moment` of the one and `crash` of the other together. So what was replied before the crash, behind a
/// receipt, is replied to the same after it.
pub fn what_was_kept_is_resumed()
    ensures { KeptIsResumed }
{}
