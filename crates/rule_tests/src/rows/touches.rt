//! When alerts are computed anew. Written by `bench/rows/rows.py`.
use crate::rows::{Row, is_answered};

static ROWS_1: [Row; 14] = [
    Row {
        shows: "touch: time alone",
        capacity: 100,
        starts: false,
        lines: r#"1 29000579 APT {"cmd":"/
1 29000580 APT {"cmd":"=
!=
"#,
        replies: r#"^
| -
| -
"#,
    },
    Row {
        shows: "touch: a tick",
        capacity: 100,
        starts: false,
        lines: r#"1 29000579 APT {"cmd":"/
1 29000580 APT {"cmd":"X
1 29000580 APT {"cmd":"=
1 29000579 APT {"cmd":"X
1 29000580 APT {"cmd":"=
"#,
        replies: r#"^
^
| 7:CDM13
^
| -
"#,
    },
    Row {
        shows: "touch: a refused tick",
        capacity: 100,
        starts: false,
        lines: r#"1 29000579 APT {"cmd":"/
2 29000580 NM {"cmd":"X
1 29000580 APT {"cmd":"=
"#,
        replies: r#"^
_201
| -
"#,
    },
    Row {
        shows: "touch: a question",
        capacity: 100,
        starts: false,
        lines: r#"1 29000579 APT {"cmd":"/
4 29000580 AO {"cmd":">
1 29000580 APT {"cmd":"=
"#,
        replies: r#"^
~07U00444c4837`004133323`0004441494243U`00004544444d`0001U0028000a000c0001053884ba01UUUUUUUUUU
| -
"#,
    },
    Row {
        shows: "touch: a schedule",
        capacity: 100,
        starts: false,
        lines: r#"1 29000579 APT {"cmd":"/
1 29000580 APT {"cmd":"/
1 29000580 APT {"cmd":"=
"#,
        replies: r#"^
^
| 7:CDM13
"#,
    },
    Row {
        shows: "touch: another flight's schedule",
        capacity: 100,
        starts: false,
        lines: r#"1 29000579 APT {"cmd":"/
1 29000580 APT {"cmd":"schedule","flight":8,J,K"stand":12}
1 29000580 APT {"cmd":"=
1 29000580 APT {"cmd":"X
1 29000580 APT {"cmd":"=
"#,
        replies: r#"^
^
| 8:CDM13
^
| 7:CDM13;8:CDM13
"#,
    },
    Row {
        shows: "touch: a tick of all",
        capacity: 100,
        starts: false,
        lines: r#"1 29000579 APT {"cmd":"/
1 29000579 APT {"cmd":"schedule","flight":8,J,K"stand":12}
1 29000579 APT {"cmd":"schedule","flight":3,J,K"stand":12}
1 29000580 APT {"cmd":"X
1 29000580 APT {"cmd":"=
"#,
        replies: r#"^
^
^
^
| 7:CDM13;8:CDM13;3:CDM13
"#,
    },
    Row {
        shows: "touch: a load",
        capacity: 100,
        starts: false,
        lines: r#"1 29000579 APT {"cmd":"/
1 29000580 APT {"cmd":"@b7`01`V
1 29000580 APT {"cmd":"=
"#,
        replies: r#"^
^
| -
"#,
    },
    Row {
        shows: "touch: an unload",
        capacity: 100,
        starts: false,
        lines: r#"1 29000579 APT {"cmd":"/
1 29000579 APT {"cmd":"@b7`01`V
1 29000580 APT {"cmd":"unS6,"kind":"alert"}
1 29000580 APT {"cmd":"=
"#,
        replies: r#"^
^
^
| -
"#,
    },
    Row {
        shows: "touch: a refused report",
        capacity: 100,
        starts: false,
        lines: r#"1 29000579 APT {"cmd":"/
3 29000580 ATC {"cmd":"+6(09:00)
1 29000580 APT {"cmd":"=
"#,
        replies: r#"^
_203
| -
"#,
    },
    Row {
        shows: "touch: a refused schedule",
        capacity: 100,
        starts: false,
        lines: r#"1 29000579 APT {"cmd":"/
2 29000580 NM {"cmd":"/
1 29000580 APT {"cmd":"=
"#,
        replies: r#"^
_201
| -
"#,
    },
    Row {
        shows: "touch: a schedule refused for its plan",
        capacity: 100,
        starts: false,
        lines: r#"1 29000579 APT {"cmd":"/
2 29000579 NM {"cmd":"+<
5 29000579 GH {"cmd":"+9(10:00)
1 29000750 APT {"cmd":"/
1 29000750 APT {"cmd":"=
1 29000750 APT {"cmd":"X
1 29000750 APT {"cmd":"=
"#,
        replies: r#"^
^
^
_207
| -
^
| 7:CDM09
"#,
    },
    Row {
        shows: "touch: a report",
        capacity: 100,
        starts: false,
        lines: r#"1 29000579 APT {"cmd":"/
2 29000579 NM {"cmd":"+<
5 29000579 GH {"cmd":"+9(10:00)
2 29000749 NM {"cmd":"+2(10:15)
1 29000750 APT {"cmd":"=
2 29000750 NM {"cmd":"+2(10:15)
1 29000750 APT {"cmd":"=
"#,
        replies: r#"^
^
^
^
| -
^
| 7:CDM09
"#,
    },
    Row {
        shows: "touch: another flight's report",
        capacity: 100,
        starts: false,
        lines: r#"1 29000579 APT {"cmd":"/
2 29000579 NM {"cmd":"+<
5 29000579 GH {"cmd":"+9(10:00)
2 29000579 NM {"cmd":"report","flight":8,"milestone":<
2 29000750 NM {"cmd":"report","flight":8,"milestone":<
1 29000750 APT {"cmd":"=
"#,
        replies: r#"^
^
^
^
^
| 8:CDM01
"#,
    },
];

#[test]
fn part_1(rt: HostRuntime) {
    for row in &ROWS_1 {
        is_answered(&rt, rt.alloc(), row);
    }
}
