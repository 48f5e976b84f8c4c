//! Each code, and which of two comes first. Written by `bench/rows/rows.py`.
use crate::rows::{Row, is_answered};

static ROWS_1: [Row; 34] = [
    Row {
        shows: "code: the words before the object",
        capacity: 100,
        starts: false,
        lines: r#"65 29000700 APT {
0 29000700 APT {
1 0 APT {
1 4294967296 APT {
1 29000700 apt {
01 29000700 APT {
1 29000700 DEI {
1  29000700 APT {
1 29000700 APT {
64 4294967295 GH {
1 1 AO {
"#,
        replies: r#"bad 100
bad 100
bad 100
bad 100
bad 100
bad 100
bad 100
bad 100
bad 101
bad 101
bad 101
"#,
    },
    Row {
        shows: "code: no object, and no command",
        capacity: 100,
        starts: false,
        lines: r#"!tack"
!tack"} x
!tack"}
1 29000700 APT []
1 29000700 APT {}
1 29000700 APT {"cmd":7}
!Tick"}
!X
"#,
        replies: r#"bad 101
bad 101
bad 102
bad 102
bad 102
bad 102
bad 102
^
"#,
    },
    Row {
        shows: "code: no command, and no field",
        capacity: 100,
        starts: false,
        lines: r#"!tack","flight":"7"}
!show","flight":"7"}
"#,
        replies: r#"bad 102
bad 103
"#,
    },
    Row {
        shows: "code: the first faulty field",
        capacity: 100,
        starts: false,
        lines: r#"!unS"7","kind":"both"}
!unS17,"kind":7}
!unS16,"kind":7}
!unS16,"kind":"both"}
!unS0,"kind":"tobt"}
!unS1}
!show"}
!show","flight":0}
!show","flight":18446744073709551615}
!show","flight":18446744073709551616}
"#,
        replies: r#"bad 103
bad 104
bad 103
bad 104
bad 104
bad 103
bad 103
bad 104
_202
bad 103
"#,
    },
    Row {
        shows: "code: the fields of a schedule",
        capacity: 100,
        starts: false,
        lines: r#"!schedule","flight":0,J,K"stand":12}
!schedule","flight":"7",J,K"stand":12}
!schedule","flight":7,"callsign":"123456789","type":"A320","reg":"DAIBC","dest":"EDDM",K"stand":12}
!schedule","flight":7,"callsign":7,"type":"A320","reg":"DAIBC","dest":"EDDM",K"stand":12}
!schedule","flight":7,"callsign":"DLH7","type":"A3200","reg":"DAIBC","dest":"EDDM",K"stand":12}
!schedule","flight":7,"callsign":"DLH7","type":7,"reg":"DAIBC","dest":"EDDM",K"stand":12}
!schedule","flight":7,"callsign":"DLH7","type":"A320","reg":"","dest":"EDDM",K"stand":12}
!schedule","flight":7,"callsign":"DLH7","type":"A320","reg":7,"dest":"EDDM",K"stand":12}
!schedule","flight":7,"callsign":"DLH7","type":"A320","reg":"DAIBC","dest":"E DM",K"stand":12}
!schedule","flight":7,"callsign":"DLH7","type":"A320","reg":"DAIBC","dest":7,K"stand":12}
!schedule","flight":7,J,"sobt":"10:00","mttt":40,"exit":5,"exot":10,"stand":12}
!schedule","flight":7,J,"sobt":7,"mttt":40,"exit":5,"exot":10,"stand":12}
!schedule","flight":7,J,"sobt":"2025-02-20T10:00:00Z","mttt":1441,"exit":5,"exot":10,"stand":12}
!schedule","flight":7,J,"sobt":"2025-02-20T10:00:00Z","mttt":"40","exit":5,"exot":10,"stand":12}
!schedule","flight":7,J,"sobt":"2025-02-20T10:00:00Z","mttt":40,"exit":256,"exot":10,"stand":12}
!schedule","flight":7,J,"sobt":"2025-02-20T10:00:00Z","mttt":40,"exit":"5","exot":10,"stand":12}
!schedule","flight":7,J,"sobt":"2025-02-20T10:00:00Z","mttt":40,"exit":5,"exot":1441,"stand":12}
!schedule","flight":7,J,"sobt":"2025-02-20T10:00:00Z","mttt":40,"exit":5,"exot":null,"stand":12}
!schedule","flight":7,J,K"stand":65536}
!schedule","flight":7,J,K"stand":-1}
"#,
        replies: r#"bad 104
bad 103
bad 104
bad 103
bad 104
bad 103
bad 104
bad 103
bad 104
bad 103
bad 104
bad 103
bad 104
bad 103
bad 104
bad 103
bad 104
bad 103
bad 104
bad 103
"#,
    },
    Row {
        shows: "code: no time",
        capacity: 100,
        starts: false,
        lines: r#"$+3,"time":null}
%+4,"time":null}
%+5,"time":null}
%+6,"time":null}
!+7,"time":null}
*+8,"time":null}
%+10,"time":null}
*+11,"time":null}
&+12,"time":null}
%+13,"time":null}
%+14,"time":null}
%+15,"time":null}
%+16,"time":null}
$+1,"time":null,J}
"#,
        replies: r#"bad 103
bad 103
bad 103
bad 103
bad 103
bad 103
bad 103
bad 103
bad 103
bad 103
bad 103
bad 103
bad 103
bad 103
"#,
    },
    Row {
        shows: "code: a field, and the program",
        capacity: 100,
        starts: false,
        lines: r#"!S17,"kind":"tobt","program":"V
!?9z"}
!?950"}
!?"}
!?ffffffffffffffffff"}
!?ffffffffffffffff"}
"#,
        replies: r#"bad 104
bad 104
bad 104
bad 301 0
bad 301 0
bad 303 0
"#,
    },
    Row {
        shows: "code: 303 at 0: ff0f0100010000009500000000000000",
        capacity: 100,
        starts: false,
        lines: r#"!?ff0f010001`V
"#,
        replies: r#"bad 303 0
"#,
    },
    Row {
        shows: "code: 304 at 0: b70b0100010000009500000000000000",
        capacity: 100,
        starts: false,
        lines: r#"!?b70b010001`V
"#,
        replies: r#"bad 304 0
"#,
    },
    Row {
        shows: "code: 305 at 0: b70b0000010000009500000000000000",
        capacity: 100,
        starts: false,
        lines: r#"!?b70b000001`V
"#,
        replies: r#"bad 305 0
"#,
    },
    Row {
        shows: "code: 304 at 0: 1810000001000000",
        capacity: 100,
        starts: false,
        lines: r#"!?181`1`"}
"#,
        replies: r#"bad 304 0
"#,
    },
    Row {
        shows: "code: 305 at 0: 180b000001000000",
        capacity: 100,
        starts: false,
        lines: r#"!?180b000001`"}
"#,
        replies: r#"bad 305 0
"#,
    },
    Row {
        shows: "code: 315 at 0: 1800000001000000",
        capacity: 100,
        starts: false,
        lines: r#"!?18`01`"}
"#,
        replies: r#"bad 315 0
"#,
    },
    Row {
        shows: "code: 305 at 1: 0500ffff00000000b70b000001000000",
        capacity: 100,
        starts: false,
        lines: r#"!?0500ffff`00b70b000001`V
"#,
        replies: r#"bad 305 1
"#,
    },
    Row {
        shows: "code: 306 at 0: 1d65ffff000000009500000000000000",
        capacity: 100,
        starts: false,
        lines: r#"!?1d65ffff`00V
"#,
        replies: r#"bad 306 0
"#,
    },
    Row {
        shows: "code: 307 at 0: bf60000000000000",
        capacity: 100,
        starts: false,
        lines: r#"!?bf6U0"}
"#,
        replies: r#"bad 307 0
"#,
    },
    Row {
        shows: "code: 308 at 0: 9500000000000000",
        capacity: 100,
        starts: false,
        lines: r#"!?V
"#,
        replies: r#"bad 308 0
"#,
    },
    Row {
        shows: "code: 308 at 0: 79600800000000009500000000000000",
        capacity: 100,
        starts: false,
        lines: r#"!?796008`0000V
"#,
        replies: r#"bad 308 0
"#,
    },
    Row {
        shows: "code: 309 at 0: 79a00800000000009500000000000000",
        capacity: 100,
        starts: false,
        lines: r#"!?79a008`0000V
"#,
        replies: r#"bad 309 0
"#,
    },
    Row {
        shows: "code: 309 at 0: 791a8000000000009500000000000000",
        capacity: 100,
        starts: false,
        lines: r#"!?791a8`00000V
"#,
        replies: r#"bad 309 0
"#,
    },
    Row {
        shows: "code: 310 at 0: 79a0f8ff000000009500000000000000",
        capacity: 100,
        starts: false,
        lines: r#"!?79a0f8ff`00V
"#,
        replies: r#"bad 310 0
"#,
    },
    Row {
        shows: "code: 311 at 0: 7a010000000000009500000000000000",
        capacity: 100,
        starts: false,
        lines: r#"!?7a01UV
"#,
        replies: r#"bad 311 0
"#,
    },
    Row {
        shows: "code: 312 at 0: 85000000040000009500000000000000",
        capacity: 100,
        starts: false,
        lines: r#"!?85`04`V
"#,
        replies: r#"bad 312 0
"#,
    },
    Row {
        shows: "code: 308 at 0: bf600000000000008500000004000000",
        capacity: 100,
        starts: false,
        lines: r#"!?bf6U085`04`V
"#,
        replies: r#"bad 308 0
"#,
    },
    Row {
        shows: "code: 313 at 0: 85000000020000009500000000000000",
        capacity: 100,
        starts: false,
        lines: r#"!?85`02`V
"#,
        replies: r#"bad 313 0
"#,
    },
    Row {
        shows: "code: 314 at 0: 070a0000f8ffffff9500000000000000",
        capacity: 100,
        starts: false,
        lines: r#"!?070a0000f8ffffffV
"#,
        replies: r#"bad 314 0
"#,
    },
    Row {
        shows: "code: digits of either case",
        capacity: 100,
        starts: false,
        lines: r#"!@B7`1A`V
!/
$+<
%+6(09:00)
!=
"#,
        replies: r#"^
^
^
^
| 7:LOC01,LOC03,LOC04
"#,
    },
    Row {
        shows: "code: an argument, and another",
        capacity: 100,
        starts: false,
        lines: r#"!@1801U`0001`85`03`V
!@b701U85`02`1801U`0001`85`03`V
!@b701U85`02`180200001127U`0085`03`V
!@b701U180200001127U`0085`03`V
!@1801U`0001`180200001127U`0085`03`V
"#,
        replies: r#"bad 313 2
bad 308 4
bad 308 4
bad 313 3
bad 313 4
"#,
    },
    Row {
        shows: "code: each register is narrowed by a number",
        capacity: 100,
        starts: false,
        lines: r#"!@b701U85`02`250001003c`95U00bf6U0V
!@b701U85`02`250001003b`95U00bf6U0V
!@b701U85`02`bf01U250101003c`95U00bf6U0V
!@b701U85`02`bf01U250101003b`95U00bf6U0V
!@b701U85`02`bf02U250201003c`95U00bf6U0V
!@b701U85`02`bf02U250201003b`95U00bf6U0V
!@b701U85`02`bf03U250301003c`95U00bf6U0V
!@b701U85`02`bf03U250301003b`95U00bf6U0V
!@b701U85`02`bf04U250401003c`95U00bf6U0V
!@b701U85`02`bf04U250401003b`95U00bf6U0V
!@b701U85`02`bf05U250501003c`95U00bf6U0V
!@b701U85`02`bf05U250501003b`95U00bf6U0V
!@b701U85`02`bf07U250701003c`95U00bf6U0V
!@b701U85`02`bf07U250701003b`95U00bf6U0V
!@b701U85`02`bf08U250801003c`95U00bf6U0V
!@b701U85`02`bf08U250801003b`95U00bf6U0V
!@b701U85`02`bf09U250901003c`95U00bf6U0V
!@b701U85`02`bf09U250901003b`95U00bf6U0V
"#,
        replies: r#"^
bad 308 4
^
bad 308 5
^
bad 308 5
^
bad 308 5
^
bad 308 5
^
bad 308 5
^
bad 308 5
^
bad 308 5
^
bad 308 5
"#,
    },
    Row {
        shows: "code: a program, and the journal",
        capacity: 1,
        starts: false,
        lines: r#"!X
!?V
!X
$X
"#,
        replies: r#"^
bad 308 0
bad 502
bad 502
"#,
    },
    Row {
        shows: "code: a program, and the owner",
        capacity: 100,
        starts: false,
        lines: r#"$?V
$?b7U00V
"#,
        replies: r#"bad 308 0
_201
"#,
    },
    Row {
        shows: "code: owner, flight, need",
        capacity: 100,
        starts: false,
        lines: r#"&+7(09:05)
!+7(09:05)
!/
&+7(09:05)
!+7(09:05)
"#,
        replies: r#"_201
_202
^
_201
_203
"#,
    },
    Row {
        shows: "code: need, and bar",
        capacity: 100,
        starts: true,
        lines: r#"*+9(10:00)
%+10(10:01)
%+13(09:58)
%+14(10:02)
%+15(10:03)
!+7(09:05)
%+14(10:02)
"#,
        replies: r#"^
^
^
^
^
^
^
_203
_204
"#,
    },
    Row {
        shows: "code: need, and the start-up time",
        capacity: 100,
        starts: true,
        lines: r#"*+9(10:00)
%+13(09:58)
%+10(10:01)
*+9,"time":null}
%+13(09:58)
"#,
        replies: r#"^
^
^
_203
^
^
_205
"#,
    },
];

#[test]
fn part_1(rt: HostRuntime) {
    for row in &ROWS_1 {
        is_answered(&rt, rt.alloc(), row);
    }
}

static ROWS_2: [Row; 4] = [
    Row {
        shows: "code: bar, and order",
        capacity: 100,
        starts: true,
        lines: r#"%+6(09:00)
!+7(09:05)
*+9(10:00)
%+10(10:01)
%+13(09:58)
%+14(10:02)
!+7(08:59)
%+15(10:03)
!+7(08:59)
"#,
        replies: r#"^
^
^
^
^
^
^
^
_206
^
_204
"#,
    },
    Row {
        shows: "code: the start-up time, and order",
        capacity: 100,
        starts: true,
        lines: r#"*+9(10:00)
%+10(10:01)
%+13(09:58)
*+9,"time":null}
%+14(09:57)
*+9(10:00)
%+10(10:01)
%+14(09:57)
"#,
        replies: r#"^
^
^
^
^
^
_205
^
^
_206
"#,
    },
    Row {
        shows: "code: a schedule of another",
        capacity: 100,
        starts: true,
        lines: r#"$/
!/
"#,
        replies: r#"^
^
_201
_207
"#,
    },
    Row {
        shows: "code: an empty slot",
        capacity: 100,
        starts: false,
        lines: r#"$unS7,"kind":"tobt"}
!unS7,"kind":"tobt"}
!S7,"kind":"alert","program":"b7U00V
!unS7,"kind":"tobt"}
!unS8,"kind":"alert"}
!unS7,"kind":"alert"}
!unS7,"kind":"alert"}
"#,
        replies: r#"_201
_321
^
_321
_321
^
_321
"#,
    },
];

#[test]
fn part_2(rt: HostRuntime) {
    for row in &ROWS_2 {
        is_answered(&rt, rt.alloc(), row);
    }
}
