//! Each condition of the alerts from CDM08 on, on both sides. Written by `bench/rows/rows.py`.
use crate::rows::{Row, is_answered};

static ROWS_1: [Row; 21] = [
    Row {
        shows: "CDM08: later",
        capacity: 100,
        starts: true,
        lines: r#"*+9(10:15)
!=
*+9(10:16)
!=
"#,
        replies: r#"^
^
^
| -
^
| 7:CDM08
"#,
    },
    Row {
        shows: "CDM08: earlier",
        capacity: 100,
        starts: true,
        lines: r#"*+9(09:45)
!=
*+9(09:44)
!=
"#,
        replies: r#"^
^
^
| -
^
| 7:CDM08
"#,
    },
    Row {
        shows: "CDM08: no target",
        capacity: 100,
        starts: true,
        lines: r#"!=
*+9(10:16)
*+9,"time":null}
!=
"#,
        replies: r#"^
^
| -
^
^
| 7:CDM10
"#,
    },
    Row {
        shows: "CDM09: ten minutes before",
        capacity: 100,
        starts: true,
        lines: r#"*+9(10:00)
1 29000749 APT {"cmd":"X
!=
1 29000750 APT {"cmd":"X
!=
"#,
        replies: r#"^
^
^
^
| -
^
| 7:CDM09
"#,
    },
    Row {
        shows: "CDM09: no target",
        capacity: 100,
        starts: true,
        lines: r#"1 29000790 APT {"cmd":"X
!=
*+9(10:00)
5 29000790 GH {"cmd":"+9,"time":null}
!=
"#,
        replies: r#"^
^
^
| -
^
^
| 7:CDM10
"#,
    },
    Row {
        shows: "CDM09: boarding",
        capacity: 100,
        starts: true,
        lines: r#"*+9(10:00)
1 29000750 APT {"cmd":"X
!=
5 29000750 GH {"cmd":"+11(09:40)
!=
"#,
        replies: r#"^
^
^
^
| 7:CDM09
^
| -
"#,
    },
    Row {
        shows: "CDM09: off-block",
        capacity: 100,
        starts: true,
        lines: r#"*+9(10:00)
%+10(10:01)
%+13(09:58)
%+14(10:02)
1 29000750 APT {"cmd":"X
!=
3 29000750 ATC {"cmd":"+15(10:03)
!=
1 29000755 APT {"cmd":"X
!=
"#,
        replies: r#"^
^
^
^
^
^
^
| 7:CDM09
^
| -
^
| -
"#,
    },
    Row {
        shows: "CDM09: at the last minute",
        capacity: 100,
        starts: false,
        lines: r#"1 4294967295 APT {"cmd":"S1,"kind":"tobt","program":"bf3U0V
1 4294967295 APT {"cmd":"/
2 4294967295 NM {"cmd":"+<
1 4294967295 APT {"cmd":"=
"#,
        replies: r#"^
^
^
| 7:CDM08,CDM09
"#,
    },
    Row {
        shows: "CDM10: the target stands",
        capacity: 100,
        starts: true,
        lines: r#"*+9(10:00)
!=
*+9,"time":null}
!=
*+9(10:00)
!=
"#,
        replies: r#"^
^
^
| -
^
| 7:CDM10
^
| -
"#,
    },
    Row {
        shows: "CDM10: no target was ever set",
        capacity: 100,
        starts: true,
        lines: r#"%+6(09:00)
!=
"#,
        replies: r#"^
^
^
| -
"#,
    },
    Row {
        shows: "CDM11: five minutes late",
        capacity: 100,
        starts: true,
        lines: r#"*+9(10:00)
%+10(10:01)
*+11(09:40)
1 29000766 APT {"cmd":"X
!=
1 29000767 APT {"cmd":"X
!=
"#,
        replies: r#"^
^
^
^
^
^
| -
^
| 7:CDM11
"#,
    },
    Row {
        shows: "CDM11: approved",
        capacity: 100,
        starts: true,
        lines: r#"*+9(10:00)
%+10(10:01)
*+11(09:40)
%+13(09:58)
1 29000767 APT {"cmd":"X
!=
3 29000767 ATC {"cmd":"+14(10:02)
!=
"#,
        replies: r#"^
^
^
^
^
^
^
| 7:CDM11
^
| -
"#,
    },
    Row {
        shows: "CDM11: no start-up time",
        capacity: 100,
        starts: true,
        lines: r#"*+9(10:00)
*+11(09:40)
1 29000767 APT {"cmd":"X
!=
"#,
        replies: r#"^
^
^
^
^
| -
"#,
    },
    Row {
        shows: "CDM11: a start-up time taken back",
        capacity: 100,
        starts: true,
        lines: r#"*+9(10:00)
%+10(10:01)
*+11(09:40)
5 29000767 GH {"cmd":"+9,"time":null}
!=
"#,
        replies: r#"^
^
^
^
^
^
| 7:CDM10
"#,
    },
    Row {
        shows: "CDM12: later",
        capacity: 100,
        starts: true,
        lines: r#"*+9(10:00)
%+10(10:01)
%+13(09:58)
%+14(10:06)
!=
%+14(10:07)
!=
"#,
        replies: r#"^
^
^
^
^
^
| -
^
| 7:CDM12
"#,
    },
    Row {
        shows: "CDM12: earlier",
        capacity: 100,
        starts: true,
        lines: r#"*+9(10:00)
%+10(10:01)
%+13(09:00)
%+14(09:56)
!=
%+14(09:55)
!=
"#,
        replies: r#"^
^
^
^
^
^
| -
^
| 7:CDM12
"#,
    },
    Row {
        shows: "CDM12: not approved",
        capacity: 100,
        starts: true,
        lines: r#"*+9(10:00)
%+10(10:01)
%+13(09:58)
!=
"#,
        replies: r#"^
^
^
^
^
| -
"#,
    },
    Row {
        shows: "CDM13: three hours before",
        capacity: 100,
        starts: false,
        lines: r#"1 29000579 APT {"cmd":"/
1 29000579 APT {"cmd":"=
1 29000580 APT {"cmd":"X
1 29000579 APT {"cmd":"=
"#,
        replies: r#"^
| -
^
| 7:CDM13
"#,
    },
    Row {
        shows: "CDM13: planned",
        capacity: 100,
        starts: false,
        lines: r#"!/
!=
$+<
!=
"#,
        replies: r#"^
| 7:CDM13
^
| -
"#,
    },
    Row {
        shows: "CDM13: at the last minute",
        capacity: 100,
        starts: false,
        lines: r#"1 4294967295 APT {"cmd":"/
1 4294967295 APT {"cmd":"=
"#,
        replies: r#"^
| 7:CDM13
"#,
    },
    Row {
        shows: "CDM13: planned alone",
        capacity: 100,
        starts: false,
        lines: r#"2 4294967295 NM {"cmd":"+<
1 4294967295 APT {"cmd":"=
"#,
        replies: r#"^
| 7:CDM01
"#,
    },
];

#[test]
fn part_1(rt: HostRuntime) {
    for row in &ROWS_1 {
        is_answered(&rt, rt.alloc(), row);
    }
}
