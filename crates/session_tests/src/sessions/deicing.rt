//! The move to the second layout, and times of de-icing.
use crate::sessions::are_answered;

// Minute 29000580 is 2025-02-20T07:00Z. The schedule and the flight plan of a flight.
const START: &str =
    r#"1 29000580 APT {"cmd":"schedule","flight":7,"callsign":"DLH7","type":"A320","reg":"DAIBC","dest":"EDDM","sobt":"2025-02-20T10:00:00Z","mttt":40,"exit":5,"exot":10,"stand":12}
2 29000580 NM {"cmd":"report","flight":7,"milestone":1,"time":"2025-02-20T10:00:00Z","callsign":"DLH7","type":"A320","reg":"DAIBC","dest":"EDDM"}
"#;

// Times of de-icing before and after a migrate, and a program loaded for records of both lengths.
const TIMES: &str =
    r#"6 29000580 DIC {"cmd":"deice","flight":7,"field":"eczt","time":"2025-02-20T10:00:00Z"}
1 29000580 APT {"cmd":"migrate"}
1 29000580 APT {"cmd":"show","flight":7}
6 29000580 DIC {"cmd":"deice","flight":7,"field":"eczt","time":"2025-02-20T10:00:00Z"}
6 29000580 DIC {"cmd":"deice","flight":7,"field":"eezt","time":"2025-02-20T09:59:00Z"}
6 29000580 DIC {"cmd":"deice","flight":7,"field":"eezt","time":"2025-02-20T10:00:00Z"}
1 29000580 APT {"cmd":"migrate"}
1 29000580 APT {"cmd":"load","milestone":7,"kind":"tobt","program":"b7000000000000009500000000000000"}
1 29000580 APT {"cmd":"load","milestone":7,"kind":"tobt","program":"b7000000000000009500000000000000","length":160}
"#;

const TOLD: &str =
    "ok 0\nok 1\nno 2 325\nmigrated 3 -\nrec 4 0700000000000000444c4837000000004133323041333230444149424300000044414942430000004544444d4544444d030000000000000028000a000c0002053884ba013884ba0100000000000000000000000000000000000000000000000000000000000000000000000000000000000000000000000000000000000000000000000000000000000000000000000000000000000000000000000000000000\nok 5\nno 6 206\nok 7\nno 8 324\nno 9 323\nok 10\n";

#[test]
fn times_of_deicing_are_told_after_a_migrate(rt: HostRuntime) {
    are_answered(&rt, rt.alloc(), "times", &[START, TIMES], 20, TOLD);
}

// A program that is right beside 128 bytes alone, and one that is right beside 160 too.
const MIGRATED: &str =
    r#"1 29000580 APT {"cmd":"load","milestone":7,"kind":"tobt","program":"2502010080000000b7000000000000009500000000000000"}
1 29000580 APT {"cmd":"load","milestone":9,"kind":"alert","program":"b7000000000000009500000000000000"}
1 29000580 APT {"cmd":"migrate"}
1 29000580 APT {"cmd":"unload","milestone":7,"kind":"tobt"}
1 29000580 APT {"cmd":"unload","milestone":9,"kind":"alert"}
"#;

#[test]
fn a_migrate_unloads_what_is_wrong_beside_long_records(rt: HostRuntime) {
    are_answered(
        &rt,
        rt.alloc(),
        "a migrate",
        &[MIGRATED],
        10,
        "ok 0\nok 1\nmigrated 2 7:tobt:308:2\nno 3 321\nok 4\n",
    );
}

// Such programs in three places, in no order.
const THREE: &str =
    r#"1 29000580 APT {"cmd":"load","milestone":16,"kind":"alert","program":"2502010080000000b7000000000000009500000000000000"}
1 29000580 APT {"cmd":"load","milestone":16,"kind":"tobt","program":"2502010080000000b7000000000000009500000000000000"}
1 29000580 APT {"cmd":"load","milestone":1,"kind":"alert","program":"2502010080000000b7000000000000009500000000000000"}
6 29000580 DIC {"cmd":"migrate"}
1 29000580 APT {"cmd":"migrate"}
"#;

#[test]
fn unloaded_programs_are_told_by_milestone(rt: HostRuntime) {
    are_answered(
        &rt,
        rt.alloc(),
        "three programs",
        &[THREE],
        10,
        "ok 0\nok 1\nok 2\nno 3 201\nmigrated 4 1:alert:308:2;16:tobt:308:2;16:alert:308:2\n",
    );
}

// A load of the last four bytes of a long record, and of one byte behind them.
const LAST: &str =
    r#"1 29000580 APT {"cmd":"load","milestone":7,"kind":"tobt","program":"61109c00000000009500000000000000","length":160}
1 29000580 APT {"cmd":"load","milestone":7,"kind":"tobt","program":"61109c00000000009500000000000000","length":128}
1 29000580 APT {"cmd":"load","milestone":7,"kind":"tobt","program":"61109c00000000009500000000000000"}
1 29000580 APT {"cmd":"load","milestone":7,"kind":"tobt","program":"61109d00000000009500000000000000","length":160}
"#;

#[test]
fn programs_are_checked_for_the_length_that_a_line_names(rt: HostRuntime) {
    are_answered(
        &rt,
        rt.alloc(),
        "lengths",
        &[LAST],
        10,
        "no 0 323\nbad 309 0\nbad 309 0\nbad 309 0\n",
    );
}
