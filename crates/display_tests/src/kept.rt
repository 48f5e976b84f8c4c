//! What displays are shown of a journal that is kept.
ghost use Rattle.std.specs.Prelude.{◌≡◌, []};

use crate::feeding::{NAMED, NAMED_BEHIND_ONE};
use crate::following::{TICKS, row_of, tick, ticked};
use crate::resuming::FIRST;
use acdm_board::Desk;
use acdm_displays::{Entries, Shown, follow, follow_from};
use acdm_keeping::{Keeper, KeptCount, Opening, Reach, SharedKeeper};
use acdm_lines::Sink;
use acdm_row::Row;
use bpf_helpers::{Bank, Helpers};
use std::alloc::Global;
use std::marker::Brand;
use std::process::Abort;
use std::sync::atomic::AtomicBool;
use std::sync::{Arc, Wait};

// Whether this is what a display is shown of a row that is kept so far.
fn is_shown(alloc: Global, row: &Arc<Row>, reach: &Reach, wanted: &str) -> bool {
    let closing = AtomicBool::new(true);
    let entries = Entries {
        row,
        reach: Some(reach),
        closing: &closing,
    };
    let Ok(shown) = follow(
        alloc,
        &entries,
        &mut "".as_bytes(),
        Sink::new(Vec::new(alloc)),
    ) else {
        return false;
    };
    let Shown { writer, .. } = shown;
    writer.into_inner().as_slice() == wanted.as_bytes()
}

// Whether these two texts, one behind the other, are what a display that has so many entries is sent of such a row.
fn is_sent_from(
    alloc: Global,
    row: &Arc<Row>,
    reach: &Reach,
    number: u64,
    first: &str,
    second: &str,
) -> bool {
    let closing = AtomicBool::new(true);
    let entries = Entries {
        row,
        reach: Some(reach),
        closing: &closing,
    };
    let Ok(wanted) = format!(in alloc; "{first}{second}") else {
        return false;
    };
    let writer = Sink::new(Vec::new(alloc));
    let Ok(shown) = follow_from(alloc, &entries, number, &mut "".as_bytes(), writer) else {
        return false;
    };
    let Shown { writer, .. } = shown;
    writer.into_inner().as_slice() == wanted.as_bytes()
}

// An entry is shown once it is kept, and not before.
fn shows_what_is_kept<J: Opening, H: Helpers + Drop>(
    rt: &(impl Wait + Abort),
    alloc: Global,
    desk: &mut Desk<H>,
    row: &Arc<Row>,
    keeper: Keeper<Vec<u8>>,
    count: KeptCount,
)
    requires row { keeper.row ≡ J.desk_row }
    requires opening { keeper.seen ≡ J.opening }
    requires fresh { keeper.writer.log ≡ [] }
    requires table { count ≡ J.table }
{
    let failed = Arc::new(alloc, AtomicBool::new(false)).expect(rt, "a word");
    let shared: SharedKeeper<Vec<u8>, J> = SharedKeeper::new(rt, alloc, keeper, count, &failed)
        .ok()
        .expect(rt, "a keeper");
    let reach = shared.reach().expect(rt, "how far it is kept");
    assert!(rt; is_shown(alloc, row, &reach, ""));
    assert!(rt; is_sent_from(alloc, row, &reach, 1, "", ""));
    assert!(rt; shared.wait_for(rt, 1).is_ok());
    assert!(rt; is_shown(alloc, row, &reach, FIRST));
    assert!(rt; tick(desk, 9));
    assert!(rt; is_shown(alloc, row, &reach, FIRST));
    assert!(rt; is_sent_from(alloc, row, &reach, 0, NAMED, FIRST));
    assert!(rt; is_sent_from(alloc, row, &reach, 1, NAMED_BEHIND_ONE, ""));
    assert!(rt; is_sent_from(alloc, row, &reach, 2, NAMED_BEHIND_ONE, ""));
    let (_keeper, ended) = shared.end(rt, None);
    assert!(rt; ended.is_ok());
    assert!(rt; is_shown(alloc, row, &reach, TICKS));
}

// The same by a desk of its own.
fn shows_of<H: Helpers + Drop>(rt: &(impl Wait + Abort), alloc: Global, helpers: H) {
    let mut desk = ticked(rt, alloc, helpers, 10);
    let row = row_of(rt, &desk);
    let keeper = Keeper::new(alloc, &row, Vec::new(alloc))
        .ok()
        .expect(rt, "a keeper");
    let count = KeptCount::new(alloc).expect(rt, "a count");
    shows_what_is_kept::<Brand, H>(rt, alloc, &mut desk, &row, keeper, count);
    drop(desk);
}

#[test]
fn an_entry_is_shown_once_it_is_kept(rt: HostRuntime) {
    let alloc = rt.alloc();
    let bank = Bank::new(alloc).expect(&rt, "a bank");
    shows_of(&rt, alloc, bank);
}
