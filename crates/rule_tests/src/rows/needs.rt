//! What a milestone needs. Written by `bench/rows/rows.py`.
use crate::rows::{Row, is_answered};

static ROWS_1: [Row; 27] = [
    Row {
        shows: "milestone 2 needs 1",
        capacity: 100,
        starts: false,
        lines: r#"!/
$+2(10:15)
$+<
$+2(10:15)
"#,
        replies: r#"^
_203
^
^
"#,
    },
    Row {
        shows: "milestone 3 needs 1",
        capacity: 100,
        starts: false,
        lines: r#"!/
$+3(08:00)
$+<
$+3(08:00)
"#,
        replies: r#"^
_203
^
^
"#,
    },
    Row {
        shows: "milestone 4 needs 1",
        capacity: 100,
        starts: false,
        lines: r#"!/
%+4(09:10)
$+<
%+4(09:10)
"#,
        replies: r#"^
_203
^
^
"#,
    },
    Row {
        shows: "milestone 5 needs 1",
        capacity: 100,
        starts: false,
        lines: r#"!/
%+5(09:08)
$+<
%+5(09:08)
"#,
        replies: r#"^
_203
^
^
"#,
    },
    Row {
        shows: "milestone 6 needs 1",
        capacity: 100,
        starts: false,
        lines: r#"!/
%+6(09:00)
$+<
%+6(09:00)
"#,
        replies: r#"^
_203
^
^
"#,
    },
    Row {
        shows: "milestone 7 needs 1",
        capacity: 100,
        starts: false,
        lines: r#"!/
!+7(09:05)
$+<
%+6(09:00)
!+7(09:05)
"#,
        replies: r#"^
_203
^
^
^
"#,
    },
    Row {
        shows: "milestone 8 needs 1",
        capacity: 100,
        starts: false,
        lines: r#"!/
*+8(09:06)
$+<
%+6(09:00)
!+7(09:05)
*+8(09:06)
"#,
        replies: r#"^
_203
^
^
^
^
"#,
    },
    Row {
        shows: "milestone 9 needs 1",
        capacity: 100,
        starts: false,
        lines: r#"!/
*+9(10:00)
$+<
*+9(10:00)
"#,
        replies: r#"^
_203
^
^
"#,
    },
    Row {
        shows: "milestone 10 needs 1",
        capacity: 100,
        starts: false,
        lines: r#"!/
%+10(10:01)
$+<
*+9(10:00)
%+10(10:01)
"#,
        replies: r#"^
_203
^
^
^
"#,
    },
    Row {
        shows: "milestone 11 needs 1",
        capacity: 100,
        starts: false,
        lines: r#"!/
*+11(09:40)
$+<
*+9(10:00)
*+11(09:40)
"#,
        replies: r#"^
_203
^
^
^
"#,
    },
    Row {
        shows: "milestone 12 needs 1",
        capacity: 100,
        starts: false,
        lines: r#"!/
&+12(09:55)
$+<
*+9(10:00)
&+12(09:55)
"#,
        replies: r#"^
_203
^
^
^
"#,
    },
    Row {
        shows: "milestone 13 needs 1",
        capacity: 100,
        starts: false,
        lines: r#"!/
%+13(09:58)
$+<
*+9(10:00)
%+10(10:01)
%+13(09:58)
"#,
        replies: r#"^
_203
^
^
^
^
"#,
    },
    Row {
        shows: "milestone 14 needs 1",
        capacity: 100,
        starts: false,
        lines: r#"!/
%+14(10:02)
$+<
*+9(10:00)
%+10(10:01)
%+13(09:58)
%+14(10:02)
"#,
        replies: r#"^
_203
^
^
^
^
^
"#,
    },
    Row {
        shows: "milestone 15 needs 1",
        capacity: 100,
        starts: false,
        lines: r#"!/
%+15(10:03)
$+<
*+9(10:00)
%+10(10:01)
%+13(09:58)
%+14(10:02)
%+15(10:03)
"#,
        replies: r#"^
_203
^
^
^
^
^
^
"#,
    },
    Row {
        shows: "milestone 16 needs 1",
        capacity: 100,
        starts: false,
        lines: r#"!/
%+16(10:12)
$+<
*+9(10:00)
%+10(10:01)
%+13(09:58)
%+14(10:02)
%+15(10:03)
%+16(10:12)
"#,
        replies: r#"^
_203
^
^
^
^
^
^
^
"#,
    },
    Row {
        shows: "milestone 7 needs 6",
        capacity: 100,
        starts: true,
        lines: r#"!+7(09:05)
%+6(09:00)
!+7(09:05)
"#,
        replies: r#"^
^
_203
^
^
"#,
    },
    Row {
        shows: "milestone 8 needs 7",
        capacity: 100,
        starts: true,
        lines: r#"%+6(09:00)
*+8(09:06)
!+7(09:05)
*+8(09:06)
"#,
        replies: r#"^
^
^
_203
^
^
"#,
    },
    Row {
        shows: "milestone 13 needs 10",
        capacity: 100,
        starts: true,
        lines: r#"*+9(10:00)
%+13(09:58)
%+10(10:01)
%+13(09:58)
"#,
        replies: r#"^
^
^
_203
^
^
"#,
    },
    Row {
        shows: "milestone 14 needs 10",
        capacity: 100,
        starts: true,
        lines: r#"*+9(10:00)
%+14(10:02)
%+10(10:01)
%+13(09:58)
%+14(10:02)
"#,
        replies: r#"^
^
^
_203
^
^
^
"#,
    },
    Row {
        shows: "milestone 14 needs 13",
        capacity: 100,
        starts: true,
        lines: r#"*+9(10:00)
%+10(10:01)
%+14(10:02)
%+13(09:58)
%+14(10:02)
"#,
        replies: r#"^
^
^
^
_203
^
^
"#,
    },
    Row {
        shows: "milestone 15 needs 14",
        capacity: 100,
        starts: true,
        lines: r#"*+9(10:00)
%+10(10:01)
%+13(09:58)
%+15(10:03)
%+14(10:02)
%+15(10:03)
"#,
        replies: r#"^
^
^
^
^
_203
^
^
"#,
    },
    Row {
        shows: "milestone 16 needs 15",
        capacity: 100,
        starts: true,
        lines: r#"*+9(10:00)
%+10(10:01)
%+13(09:58)
%+14(10:02)
%+16(10:12)
%+15(10:03)
%+16(10:12)
"#,
        replies: r#"^
^
^
^
^
^
_203
^
^
"#,
    },
    Row {
        shows: "milestone 10 needs TOBT",
        capacity: 100,
        starts: true,
        lines: r#"%+10(10:01)
*+9(10:00)
*+9,"time":null}
%+10(10:01)
*+9(10:00)
%+10(10:01)
"#,
        replies: r#"^
^
_205
^
^
_205
^
^
"#,
    },
    Row {
        shows: "milestone 11 needs TOBT",
        capacity: 100,
        starts: true,
        lines: r#"*+11(09:40)
*+9(10:00)
*+9,"time":null}
*+11(09:40)
*+9(10:00)
*+11(09:40)
"#,
        replies: r#"^
^
_205
^
^
_205
^
^
"#,
    },
    Row {
        shows: "milestone 12 needs TOBT",
        capacity: 100,
        starts: true,
        lines: r#"&+12(09:55)
*+9(10:00)
*+9,"time":null}
&+12(09:55)
*+9(10:00)
&+12(09:55)
"#,
        replies: r#"^
^
_205
^
^
_205
^
^
"#,
    },
    Row {
        shows: "milestone 13 needs TSAT",
        capacity: 100,
        starts: true,
        lines: r#"*+9(10:00)
%+10(10:01)
*+9,"time":null}
%+13(09:58)
*+9(10:00)
%+13(09:58)
%+10(10:01)
%+13(09:58)
"#,
        replies: r#"^
^
^
^
^
_205
^
_205
^
^
"#,
    },
    Row {
        shows: "milestone 14 needs TSAT",
        capacity: 100,
        starts: true,
        lines: r#"*+9(10:00)
%+10(10:01)
%+13(09:58)
*+9,"time":null}
%+14(10:02)
*+9(10:00)
%+14(10:02)
%+10(10:01)
%+14(10:02)
"#,
        replies: r#"^
^
^
^
^
^
_205
^
_205
^
^
"#,
    },
];

#[test]
fn part_1(rt: HostRuntime) {
    for row in &ROWS_1 {
        is_answered(&rt, rt.alloc(), row);
    }
}
