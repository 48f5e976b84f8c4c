//! The board as partners see it, by the profile's worked examples. They are rows of one table, since
//! each function of a test is proved.
//!
//! Minute 29000580 is 2025-02-20T07:00Z, and 29000760 is 10:00Z of that day.
use crate::sessions::are_answered;

// Flight 7 with a schedule and a flight plan.
const START: &str =
    r#"1 29000580 APT {"cmd":"schedule","flight":7,"callsign":"DLH7","type":"A320","reg":"DAIBC","dest":"EDDM","sobt":"2025-02-20T10:00:00Z","mttt":40,"exit":5,"exot":10,"stand":12}
2 29000580 NM {"cmd":"report","flight":7,"milestone":1,"time":"2025-02-20T10:00:00Z","callsign":"DLH7","type":"A320","reg":"DAIBC","dest":"EDDM"}
"#;

/// What partners send to an empty board, after a first part, and are replied.
struct Talk {
    shows: &'static str,
    first: &'static str,
    lines: &'static str,
    replies: &'static str,
}

static TALKS: [Talk; 10] = [
    Talk {
        shows: "no alert and the whole record",
        first: START,
        lines: r#"1 29000580 APT {"cmd":"alerts"}
1 29000580 APT {"cmd":"show","flight":7}
"#,
        replies: r#"ok 0
ok 1
alerts 2 -
rec 3 0700000000000000444c4837000000004133323041333230444149424300000044414942430000004544444d4544444d030000000000000028000a000c0001053884ba013884ba010000000000000000000000000000000000000000000000000000000000000000000000000000000000000000000000000000000000000000
"#,
    },
    Talk {
        shows: "a start up time before the target off block time is refused",
        first: START,
        lines: r#"3 29000580 ATC {"cmd":"report","flight":7,"milestone":10,"time":"2025-02-20T10:00:00Z"}
4 29000580 AO {"cmd":"show","flight":7}
"#,
        replies: r#"ok 0
ok 1
no 2 205
rec 3 0700000000000000444c4837000000004133323041333230444149424300000044414942430000004544444d4544444d030000000000000028000a000c0001053884ba013884ba010000000000000000000000000000000000000000000000000000000000000000000000000000000000000000000000000000000000000000
"#,
    },
    Talk {
        shows: "owners and unknown flights are told",
        first: START,
        lines: r#"4 29000580 AO {"cmd":"report","flight":7,"milestone":6,"time":"2025-02-20T09:00:00Z"}
4 29000580 AO {"cmd":"report","flight":8,"milestone":6,"time":"2025-02-20T09:00:00Z"}
3 29000580 ATC {"cmd":"report","flight":8,"milestone":6,"time":"2025-02-20T09:00:00Z"}
1 29000580 APT {"cmd":"schedule","flight":7,"callsign":"DLH7","type":"A320","reg":"DAIBC","dest":"EDDM","sobt":"2025-02-20T10:00:00Z","mttt":40,"exit":5,"exot":10,"stand":12}
4 29000580 AO {"cmd":"show","flight":8}
"#,
        replies: r#"ok 0
ok 1
no 2 201
no 3 201
no 4 202
no 5 207
no 6 202
"#,
    },
    Talk {
        shows: "a deleted target off block time takes the start up time along",
        first: START,
        lines: r#"5 29000580 GH {"cmd":"report","flight":7,"milestone":9,"time":"2025-02-20T10:00:00Z"}
3 29000580 ATC {"cmd":"report","flight":7,"milestone":10,"time":"2025-02-20T10:00:00Z"}
5 29000580 GH {"cmd":"report","flight":7,"milestone":9,"time":null}
1 29000580 APT {"cmd":"alerts"}
3 29000580 ATC {"cmd":"report","flight":7,"milestone":13,"time":"2025-02-20T10:00:00Z"}
3 29000580 ATC {"cmd":"show","flight":7}
"#,
        replies: r#"ok 0
ok 1
ok 2
ok 3
ok 4
alerts 5 7:CDM10
no 6 205
rec 7 0700000000000000444c4837000000004133323041333230444149424300000044414942430000004544444d4544444d030600000004000028000a000c0001053884ba013884ba010000000000000000000000000000000000000000000000000000000000000000000000000000000000000000000000000000000000000000
"#,
    },
    Talk {
        shows: "the missing slot is told until it comes",
        first: "",
        lines: r#"2 29000580 NM {"cmd":"report","flight":7,"milestone":1,"time":"2025-02-20T10:00:00Z","callsign":"DLH7","type":"A320","reg":"DAIBC","dest":"EDDM"}
1 29000580 APT {"cmd":"alerts"}
1 29000580 APT {"cmd":"schedule","flight":7,"callsign":"DLH7","type":"A320","reg":"DAIBC","dest":"EDDM","sobt":"2025-02-20T10:00:00Z","mttt":40,"exit":5,"exot":10,"stand":12}
1 29000580 APT {"cmd":"alerts"}
"#,
        replies: r#"ok 0
alerts 1 7:CDM01
ok 2
alerts 3 -
"#,
    },
    Talk {
        shows: "a tick of the airport tells a missing flight plan",
        first: "",
        lines: r#"1 29000579 APT {"cmd":"schedule","flight":7,"callsign":"DLH7","type":"A320","reg":"DAIBC","dest":"EDDM","sobt":"2025-02-20T10:00:00Z","mttt":40,"exit":5,"exot":10,"stand":12}
1 29000579 APT {"cmd":"alerts"}
1 29000580 APT {"cmd":"tick"}
1 29000580 APT {"cmd":"alerts"}
"#,
        replies: r#"ok 0
alerts 1 -
ok 2
alerts 3 7:CDM13
"#,
    },
    Talk {
        shows: "a tick of another role tells nothing",
        first: "",
        lines: r#"1 29000579 APT {"cmd":"schedule","flight":7,"callsign":"DLH7","type":"A320","reg":"DAIBC","dest":"EDDM","sobt":"2025-02-20T10:00:00Z","mttt":40,"exit":5,"exot":10,"stand":12}
2 29000580 NM {"cmd":"tick"}
1 29000580 APT {"cmd":"alerts"}
"#,
        replies: r#"ok 0
no 1 201
alerts 2 -
"#,
    },
    Talk {
        shows: "the same flight plan twice changes nothing",
        first: START,
        lines: r#"2 29000580 NM {"cmd":"report","flight":7,"milestone":1,"time":"2025-02-20T10:00:00Z","callsign":"DLH7","type":"A320","reg":"DAIBC","dest":"EDDM"}
1 29000580 APT {"cmd":"show","flight":7}
"#,
        replies: r#"ok 0
ok 1
ok 2
rec 3 0700000000000000444c4837000000004133323041333230444149424300000044414942430000004544444d4544444d030000000000000028000a000c0001053884ba013884ba010000000000000000000000000000000000000000000000000000000000000000000000000000000000000000000000000000000000000000
"#,
    },
    Talk {
        shows: "a slot time is set and taken back",
        first: START,
        lines: r#"2 29000580 NM {"cmd":"report","flight":7,"milestone":2,"time":"2025-02-20T10:10:00Z"}
2 29000580 NM {"cmd":"show","flight":7}
2 29000580 NM {"cmd":"report","flight":7,"milestone":2,"time":null}
2 29000580 NM {"cmd":"show","flight":7}
"#,
        replies: r#"ok 0
ok 1
ok 2
rec 3 0700000000000000444c4837000000004133323041333230444149424300000044414942430000004544444d4544444d070000000000000028000a000c0001053884ba013884ba014284ba0100000000000000000000000000000000000000000000000000000000000000000000000000000000000000000000000000000000
ok 4
rec 5 0700000000000000444c4837000000004133323041333230444149424300000044414942430000004544444d4544444d070000000000000028000a000c0001053884ba013884ba010000000000000000000000000000000000000000000000000000000000000000000000000000000000000000000000000000000000000000
"#,
    },
    Talk {
        shows: "flights with alerts are listed in order of creation",
        first: "",
        lines: r#"1 29000580 APT {"cmd":"schedule","flight":9,"callsign":"DLH9","type":"A320","reg":"DAIBC","dest":"EDDM","sobt":"2025-02-20T10:00:00Z","mttt":40,"exit":5,"exot":10,"stand":12}
2 29000580 NM {"cmd":"report","flight":7,"milestone":1,"time":"2025-02-20T10:00:00Z","callsign":"DLH7","type":"A320","reg":"DAIBC","dest":"EDDM"}
1 29000580 APT {"cmd":"alerts"}
"#,
        replies: r#"ok 0
ok 1
alerts 2 9:CDM13;7:CDM01
"#,
    },
];

#[test]
fn partners_see_the_board(rt: HostRuntime) {
    for talk in &TALKS {
        let parts = [talk.first, talk.lines];
        are_answered(&rt, rt.alloc(), talk.shows, &parts, 100, talk.replies);
    }
}
