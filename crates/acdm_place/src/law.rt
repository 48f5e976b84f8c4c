//! Laws of every list of events at a place, the newest first. Each function does nothing when it runs; its
//! contract is the law.
ghost use Rattle.std.specs.Prelude.{◌≡◌, ◌≤◌, ◌<◌, ◌+◌, ◌-◌, ◌*◌, ◌&&◌, ℕ, Bool, List, ◌∷◌, ◌++◌, Option, Some, None, true, false};
ghost use Rattle.acdm_place.specs.declared.events.Event.{Event};
ghost use Rattle.acdm_place.specs.Filled as filled;
ghost use Rattle.acdm_place.specs.Filled.{Reaches, NoneReaches, times_told};
ghost use Rattle.acdm_place.specs.Paced.{taken, clock};
ghost use Rattle.acdm_place.specs.Past.{past, told_at, serves, hears, cuts, line_of, heard_of, was_asked, MayCut, IsServed};
ghost use Rattle.acdm_place.specs.Turns.{is_over};

/// At most one connection is served: the newest that was ever served, which took the place by a whole first
/// line that is a command.
pub fn one_is_served_at_most()
    ensures once { (again : Bool) (J : List Event) (n : ℕ) → serves again J n ≤ 1 }
    ensures one { (again : Bool) (J : List Event) (m n : ℕ) → IsServed again J m
        → IsServed again J n → m ≡ n }
    ensures newest { (again : Bool) (J : List Event) (m n : ℕ) → IsServed again J n → n < m
        → serves again J m ≡ 0 }
    ensures by_line { (again : Bool) (J : List Event) (e : Event) (n : ℕ)
        → (told_at again J e).serve ≡ Some n → e ≡ Event.FirstLine n true true }
{}

/// Who is served is who the place says.
pub fn who_is_served_is_told()
    ensures told { (again : Bool) (J : List Event) (n : ℕ) → (past again J).served ≡ Some n
        → IsServed again J n }
    ensures kept { (again : Bool) (J : List Event) (n : ℕ) → IsServed again J n
        → (past again J).served ≡ Some n }
{}

/// Who was replaced is cut off exactly once, and nobody who was not served.
pub fn who_is_replaced_is_cut_off_once()
    ensures replaced { (again : Bool) (J : List Event) (m n : ℕ) → serves again J n ≡ 1
        → serves again J m ≡ 1 → n < m → cuts again J n ≡ 1 }
    ensures once { (again : Bool) (J : List Event) (n : ℕ) → cuts again J n ≤ serves again J n }
{}

/// A session hears one connection after the other, each once, and each that is served: when it comes for the next
/// one while no line is in hand.
pub fn connections_are_heard_one_after_the_other()
    ensures only { (again : Bool) (J : List Event) (e : Event) (n : ℕ)
        → (told_at again J e).hear ≡ Some n
        → (e ≡ Event.NextAsked) × IsServed again J n × (line_of again J ≡ None) }
    ensures once { (again : Bool) (J : List Event) (n : ℕ) → hears again J n ≤ 1 }
    ensures always { (again : Bool) (J : List Event) (n : ℕ) → IsServed again J n
        → line_of again J ≡ None → ¬ (heard_of again J ≡ Some n)
        → (told_at again J Event.NextAsked).hear ≡ Some n }
    ensures served { (again : Bool) (J : List Event) (n : ℕ) → heard_of again J ≡ Some n
        → serves again J n ≡ 1 }
{}

/// A reply goes to the connection whose line it answers while that one is served, and to nobody else.
pub fn a_reply_goes_to_who_asked()
    ensures only { (again : Bool) (J : List Event) (e : Event) (n : ℕ)
        → (told_at again J e).hand_on_to ≡ Some n
        → (e ≡ Event.ReplyMade) × (line_of again J ≡ Some n) × IsServed again J n }
    ensures always { (again : Bool) (J : List Event) (n : ℕ) → line_of again J ≡ Some n
        → IsServed again J n → (told_at again J Event.ReplyMade).hand_on_to ≡ Some n }
{}

/// A line is admitted only of who is heard, while no other is in hand and the place does not close.
pub fn lines_of_who_is_heard_are_admitted()
    ensures only { (again : Bool) (J : List Event) (e : Event) → (told_at again J e).admits ≡ true
        → (n : ℕ) × (e ≡ Event.LineTaken n) × (heard_of again J ≡ Some n) × (line_of again J ≡ None) }
    ensures always { (again : Bool) (J : List Event) (n : ℕ) → heard_of again J ≡ Some n
        → line_of again J ≡ None → was_asked J ≡ false
        → (told_at again J (Event.LineTaken n)).admits ≡ true }
{}

/// A newcomer takes the place by a whole first line that is a command, and by no other. Who comes with
/// another is refused, and the one that is there goes on.
pub fn a_newcomer_is_judged_by_its_first_line()
    ensures taken { (J : List Event) (n : ℕ) → 0 < n → was_asked J ≡ false
        → ((m : ℕ) → serves true J m ≡ 1 → m < n)
        → (told_at true J (Event.FirstLine n true true)).serve ≡ Some n }
    ensures refused { (again : Bool) (J : List Event) (n : ℕ) (w c : Bool) → (w && c) ≡ false
        → ¬ IsServed again J n → (told_at again J (Event.FirstLine n w c)).refuse ≡ Some n }
    ensures same { (again : Bool) (J : List Event) (n : ℕ) (w c : Bool) → (w && c) ≡ false
        → past again (Event.FirstLine n w c ∷ J) ≡ past again J }
    ensures stays { (again : Bool) (J : List Event) (n : ℕ) (w c : Bool) → (w && c) ≡ false
        → (told_at again J (Event.FirstLine n w c)).cut_off ≡ None }
    ensures never { (again : Bool) (J : List Event) (m n : ℕ) (w c : Bool)
        → (told_at again J (Event.FirstLine m w c)).refuse ≡ Some n → ¬ IsServed again J n }
{}

/// Who is served is cut off where nothing more comes and no line is in hand, and where replies fail. It is too
/// where the board closes and no line is in hand, or as soon as it is answered. It is where a board that closes has
/// waited, and where the session has ended.
pub fn who_is_gone_is_cut_off()
    ensures ended { (again : Bool) (J : List Event) (n : ℕ) → IsServed again J n
        → heard_of again J ≡ Some n → line_of again J ≡ None
        → (told_at again J Event.NextAsked).cut_off ≡ Some n }
    ensures failed { (again : Bool) (J : List Event) (n : ℕ) → IsServed again J n
        → (told_at again J (Event.WriteFailed n)).cut_off ≡ Some n }
    ensures closed { (again : Bool) (J : List Event) (n : ℕ) → IsServed again J n
        → line_of again J ≡ None → (told_at again J Event.CloseAsked).cut_off ≡ Some n }
    ensures answered { (again : Bool) (J : List Event) (n : ℕ) → IsServed again J n
        → was_asked J ≡ true → (told_at again J Event.LineAnswered).cut_off ≡ Some n }
    ensures late { (again : Bool) (J : List Event) (n milliseconds : ℕ) → IsServed again J n
        → was_asked J ≡ true → 5000 ≤ milliseconds
        → (told_at again J (Event.Tick milliseconds)).cut_off ≡ Some n }
    ensures over { (again : Bool) (J : List Event) (n : ℕ) → IsServed again J n
        → (told_at again J Event.SessionEnded).cut_off ≡ Some n }
{}

/// Once a place closes no line is admitted, nobody is served or heard anew, and the line in hand is answered. The
/// session is not over before. Its connection is cut off only where it takes no reply, a newcomer took its place, it
/// was waited for, or the session has ended.
pub fn closing_answers_the_line_in_hand()
    ensures closed { (again : Bool) (J : List Event) (e : Event) → was_asked J ≡ true
        → (told_at again J e).admits ≡ false }
    ensures newcomers { (again : Bool) (J : List Event) (e : Event) → was_asked J ≡ true
        → (told_at again J e).serve ≡ None }
    ensures next { (again : Bool) (J : List Event) (e : Event) → was_asked J ≡ true
        → (told_at again J e).hear ≡ None }
    ensures answered { (again : Bool) (J : List Event) → is_over (past again J) ≡ true
        → line_of again J ≡ None }
    ensures cut { (again : Bool) (J : List Event) (e : Event) (n : ℕ) → line_of again J ≡ Some n
        → (told_at again J e).cut_off ≡ Some n → MayCut e J n }
{}

/// A session is over for good: where the place closes or, without `again`, where its one connection is gone, as
/// soon as no line is in hand, and not before. Nobody is served then.
pub fn a_session_ends_for_good()
    ensures good { (again : Bool) (J : List Event) (e : Event) → is_over (past again J) ≡ true
        → is_over (past again (e ∷ J)) ≡ true }
    ensures closed { (again : Bool) (J : List Event) → was_asked J ≡ true
        → line_of again J ≡ None → is_over (past again J) ≡ true }
    ensures gone { (J : List Event) (n : ℕ) → cuts false J n ≡ 1 → heard_of false J ≡ None
        → line_of false J ≡ None → is_over (past false J) ≡ true }
    ensures nobody { (again : Bool) (J : List Event) (n : ℕ) → is_over (past again J) ≡ true
        → ¬ IsServed again J n }
    ensures goes_on { (J : List Event) → was_asked J ≡ false → is_over (past true J) ≡ false }
    ensures waits { (J : List Event) → was_asked J ≡ false
        → ((n : ℕ) → cuts false J n ≡ 0) → is_over (past false J) ≡ false }
{}

/// Of lines that are asked for at any moments, the newest first, so many are taken. From the first moment of any
/// window on these are as many as are allowed at once, and as many a minute. Moments are milliseconds.
pub fn a_pace_is_kept()
    ensures whole { (most start : ℕ) (J : List ℕ) → 60000 * taken most start J + most * start
        ≤ 60000 * most + most * clock start J }
    ensures window { (most start : ℕ) (J K : List ℕ) (t : ℕ) →
        60000 * taken most start (J ++ t ∷ K) + most * clock start (t ∷ K)
        ≤ 60000 * taken most start K + 60000 * most + most * clock start (J ++ t ∷ K) }
    ensures minute { (most start : ℕ) (J K : List ℕ) (t : ℕ) →
        clock start (J ++ t ∷ K) ≤ clock start (t ∷ K) + 60000 →
        taken most start (J ++ t ∷ K) ≤ taken most start K + 2 * most }
    ensures waits { (most start : ℕ) (J : List ℕ) (t : ℕ) → 0 < most
        → 60000 ≤ (t - clock start J) * most → taken most start (t ∷ J) ≡ 1 + taken most start J }
{}

/// A level is told at the first look that finds as much used, and never else: so once at most.
pub fn a_level_is_told_once()
    ensures first { (room percent u : ℕ) (J : List ℕ) → filled.told_at room percent J u ≡ true
        → Reaches room percent u × NoneReaches room percent J }
    ensures always { (room percent u : ℕ) (J : List ℕ) → Reaches room percent u
        → NoneReaches room percent J → filled.told_at room percent J u ≡ true }
    ensures once { (room percent : ℕ) (J : List ℕ) → times_told room percent J ≤ 1 }
{}
