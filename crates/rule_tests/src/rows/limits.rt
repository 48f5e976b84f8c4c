//! The longest lines and programs, and the most flights. Written by `bench/rows/rows.py`.
use crate::rows::{Crowd, Long, is_crowd_answered, is_long_answered};

static LINES: [Long; 18] = [
    Long {
        shows: "limit: a line of 70,000 bytes",
        head: r#"1 29000700 APT {"cmd":"tick"}"#,
        part: " ",
        times: 69971,
        tail: r#""#,
        more: r#""#,
        replies: "ok 0
",
    },
    Long {
        shows: "limit: a line of 70,001 bytes",
        head: r#"1 29000700 APT {"cmd":"tick"}"#,
        part: " ",
        times: 69972,
        tail: r#""#,
        more: r#"1 29000700 APT {"cmd":"tick"}
"#,
        replies: "bad 105
ok 0
",
    },
    Long {
        shows: "limit: no command in 70,000 bytes",
        head: r#"1 29000700 APT {"cmd":"tack"}"#,
        part: " ",
        times: 69971,
        tail: r#""#,
        more: r#"1 29000700 APT {"cmd":"tick"}
"#,
        replies: "bad 102
ok 0
",
    },
    Long {
        shows: "limit: no command in 70,001 bytes",
        head: r#"1 29000700 APT {"cmd":"tack"}"#,
        part: " ",
        times: 69972,
        tail: r#""#,
        more: r#"1 29000700 APT {"cmd":"tick"}
"#,
        replies: "bad 105
ok 0
",
    },
    Long {
        shows: "limit: no prefix in 70,000 bytes",
        head: r#"65 29000700 APT {"#,
        part: " ",
        times: 69983,
        tail: r#""#,
        more: r#""#,
        replies: "bad 100
",
    },
    Long {
        shows: "limit: no prefix in 70,001 bytes",
        head: r#"65 29000700 APT {"#,
        part: " ",
        times: 69984,
        tail: r#""#,
        more: r#""#,
        replies: "bad 105
",
    },
    Long {
        shows: "limit: 4,096 slots",
        head: r#"1 29000700 APT {"cmd":"load","milestone":7,"kind":"tobt","program":""#,
        part: "b700000000000000",
        times: 4095,
        tail: r#"9500000000000000"}"#,
        more: r#""#,
        replies: "ok 0
",
    },
    Long {
        shows: "limit: 4,096 slots without an exit",
        head: r#"1 29000700 APT {"cmd":"load","milestone":7,"kind":"tobt","program":""#,
        part: "b700000000000000",
        times: 4096,
        tail: r#""}"#,
        more: r#""#,
        replies: "bad 307 4095
",
    },
    Long {
        shows: "limit: no opcode in the last of 4,096 slots",
        head: r#"1 29000700 APT {"cmd":"load","milestone":7,"kind":"tobt","program":""#,
        part: "b700000000000000",
        times: 4095,
        tail: r#"ffffffffffffffff"}"#,
        more: r#""#,
        replies: "bad 303 4095
",
    },
    Long {
        shows: "limit: 4,096 slots of no opcode",
        head: r#"1 29000700 APT {"cmd":"load","milestone":7,"kind":"tobt","program":""#,
        part: "ffffffffffffffff",
        times: 4096,
        tail: r#""}"#,
        more: r#""#,
        replies: "bad 303 0
",
    },
    Long {
        shows: "limit: 4,097 slots",
        head: r#"1 29000700 APT {"cmd":"load","milestone":7,"kind":"tobt","program":""#,
        part: "b700000000000000",
        times: 4096,
        tail: r#"9500000000000000"}"#,
        more: r#""#,
        replies: "bad 302 0
",
    },
    Long {
        shows: "limit: 4,097 slots of no opcode",
        head: r#"1 29000700 APT {"cmd":"load","milestone":7,"kind":"tobt","program":""#,
        part: "ffffffffffffffff",
        times: 4097,
        tail: r#""}"#,
        more: r#""#,
        replies: "bad 302 0
",
    },
    Long {
        shows: "limit: a byte less than 4,096 slots",
        head: r#"1 29000700 APT {"cmd":"load","milestone":7,"kind":"tobt","program":""#,
        part: "b7",
        times: 32767,
        tail: r#""}"#,
        more: r#""#,
        replies: "bad 301 0
",
    },
    Long {
        shows: "limit: a byte more than 4,096 slots",
        head: r#"1 29000700 APT {"cmd":"load","milestone":7,"kind":"tobt","program":""#,
        part: "b7",
        times: 32769,
        tail: r#""}"#,
        more: r#""#,
        replies: "bad 302 0
",
    },
    Long {
        shows: "limit: 100 lists in the object",
        head: r#"1 29000700 APT {"cmd":"tick","more":"#,
        part: "[",
        times: 100,
        tail: r#"]]]]]]]]]]]]]]]]]]]]]]]]]]]]]]]]]]]]]]]]]]]]]]]]]]]]]]]]]]]]]]]]]]]]]]]]]]]]]]]]]]]]]]]]]]]]]]]]]]]]}"#,
        more: r#""#,
        replies: "ok 0
",
    },
    Long {
        shows: "limit: 126 lists in the object",
        head: r#"1 29000700 APT {"cmd":"tick","more":"#,
        part: "[",
        times: 126,
        tail: r#"]]]]]]]]]]]]]]]]]]]]]]]]]]]]]]]]]]]]]]]]]]]]]]]]]]]]]]]]]]]]]]]]]]]]]]]]]]]]]]]]]]]]]]]]]]]]]]]]]]]]]]]]]]]]]]]]]]]]]]]]]]]]]]}"#,
        more: r#""#,
        replies: "ok 0
",
    },
    Long {
        shows: "limit: 127 lists in the object",
        head: r#"1 29000700 APT {"cmd":"tick","more":"#,
        part: "[",
        times: 127,
        tail: r#"]]]]]]]]]]]]]]]]]]]]]]]]]]]]]]]]]]]]]]]]]]]]]]]]]]]]]]]]]]]]]]]]]]]]]]]]]]]]]]]]]]]]]]]]]]]]]]]]]]]]]]]]]]]]]]]]]]]]]]]]]]]]]]]}"#,
        more: r#"1 29000700 APT {"cmd":"tick"}
"#,
        replies: "bad 101
ok 0
",
    },
    Long {
        shows: "limit: 200 lists in the object",
        head: r#"1 29000700 APT {"cmd":"tick","more":"#,
        part: "[",
        times: 200,
        tail: r#"]]]]]]]]]]]]]]]]]]]]]]]]]]]]]]]]]]]]]]]]]]]]]]]]]]]]]]]]]]]]]]]]]]]]]]]]]]]]]]]]]]]]]]]]]]]]]]]]]]]]]]]]]]]]]]]]]]]]]]]]]]]]]]]]]]]]]]]]]]]]]]]]]]]]]]]]]]]]]]]]]]]]]]]]]]]]]]]]]]]]]]]]]]]]]]]]]]]]]]]]}"#,
        more: r#"1 29000700 APT {"cmd":"tick"}
"#,
        replies: "bad 101
ok 0
",
    },
];

static CROWDS: [Crowd; 2] = [
    Crowd {
        shows: "limit: 4,096 flights that are scheduled",
        flights: 4096,
        capacity: 4106,
        before: r#"1 29000580 APT {"cmd":"schedule","flight":"#,
        behind: r#","callsign":"DLH7","type":"A320","reg":"DAIBC","dest":"EDDM","sobt":"2025-02-20T10:00:00Z","mttt":40,"exit":5,"exot":10,"stand":12}"#,
        alert: ":CDM13",
        more: r#"1 29000580 APT {"cmd":"schedule","flight":4097,"callsign":"DLH7","type":"A320","reg":"DAIBC","dest":"EDDM","sobt":"2025-02-20T10:00:00Z","mttt":40,"exit":5,"exot":10,"stand":12}
1 29000580 APT {"cmd":"schedule","flight":4096,"callsign":"DLH7","type":"A320","reg":"DAIBC","dest":"EDDM","sobt":"2025-02-20T10:00:00Z","mttt":40,"exit":5,"exot":10,"stand":12}
2 29000580 NM {"cmd":"report","flight":4098,"milestone":1,"time":"2025-02-20T10:00:00Z","callsign":"DLH7","type":"A320","reg":"DAIBC","dest":"EDDM"}
2 29000580 NM {"cmd":"report","flight":1,"milestone":1,"time":"2025-02-20T10:00:00Z","callsign":"DLH7","type":"A320","reg":"DAIBC","dest":"EDDM"}
3 29000580 ATC {"cmd":"report","flight":4097,"milestone":6,"time":"2025-02-20T09:00:00Z"}
2 29000580 NM {"cmd":"schedule","flight":4097,"callsign":"DLH7","type":"A320","reg":"DAIBC","dest":"EDDM","sobt":"2025-02-20T10:00:00Z","mttt":40,"exit":5,"exot":10,"stand":12}
1 29000580 APT {"cmd":"schedule","flight":1,"callsign":"DLH7","type":"A320","reg":"DAIBC","dest":"EDDM","sobt":"2025-02-20T10:00:00Z","mttt":40,"exit":5,"exot":10,"stand":12}
"#,
        replies: "no 4097 503
ok 4098
no 4099 503
ok 4100
no 4101 202
no 4102 201
no 4103 207
",
    },
    Crowd {
        shows: "limit: 4,096 flights that are planned",
        flights: 4096,
        capacity: 4106,
        before: r#"2 29000580 NM {"cmd":"report","flight":"#,
        behind: r#","milestone":1,"time":"2025-02-20T10:00:00Z","callsign":"DLH7","type":"A320","reg":"DAIBC","dest":"EDDM"}"#,
        alert: ":CDM01",
        more: r#"2 29000580 NM {"cmd":"report","flight":4097,"milestone":1,"time":"2025-02-20T10:00:00Z","callsign":"DLH7","type":"A320","reg":"DAIBC","dest":"EDDM"}
2 29000580 NM {"cmd":"report","flight":1,"milestone":1,"time":"2025-02-20T10:00:00Z","callsign":"DLH7","type":"A320","reg":"DAIBC","dest":"EDDM"}
"#,
        replies: "no 4097 503
ok 4098
",
    },
];

#[test]
fn the_longest_lines(rt: HostRuntime) {
    for row in &LINES {
        is_long_answered(&rt, rt.alloc(), row);
    }
}

#[test]
fn the_most_flights(rt: HostRuntime) {
    for row in &CROWDS {
        is_crowd_answered(&rt, rt.alloc(), row);
    }
}
