//! The order of times. Written by `bench/rows/rows.py`.
use crate::rows::{Row, is_answered};

static ROWS_1: [Row; 7] = [
    Row {
        shows: "in-block is not before landed",
        capacity: 100,
        starts: true,
        lines: r#"%+6(09:00)
!+7(08:59)
!+7(09:00)
"#,
        replies: r#"^
^
^
_206
^
"#,
    },
    Row {
        shows: "ground handling is not before in-block",
        capacity: 100,
        starts: true,
        lines: r#"%+6(09:00)
!+7(09:05)
*+8(09:04)
*+8(09:05)
"#,
        replies: r#"^
^
^
^
_206
^
"#,
    },
    Row {
        shows: "in-block is not behind ground handling",
        capacity: 100,
        starts: true,
        lines: r#"%+6(09:00)
!+7(09:05)
*+8(09:06)
!+7(09:07)
!+7(09:06)
"#,
        replies: r#"^
^
^
^
^
_206
^
"#,
    },
    Row {
        shows: "approval is not before the request",
        capacity: 100,
        starts: true,
        lines: r#"*+9(10:00)
%+10(10:01)
%+13(09:58)
%+14(09:57)
%+14(09:58)
"#,
        replies: r#"^
^
^
^
^
_206
^
"#,
    },
    Row {
        shows: "the request is not behind the approval",
        capacity: 100,
        starts: true,
        lines: r#"*+9(10:00)
%+10(10:01)
%+13(09:58)
%+14(10:02)
%+13(10:03)
%+13(10:02)
"#,
        replies: r#"^
^
^
^
^
^
_206
^
"#,
    },
    Row {
        shows: "take-off is not before off-block",
        capacity: 100,
        starts: true,
        lines: r#"*+9(10:00)
%+10(10:01)
%+13(09:58)
%+14(10:02)
%+15(10:03)
%+16(10:02)
%+16(10:03)
"#,
        replies: r#"^
^
^
^
^
^
^
_206
^
"#,
    },
    Row {
        shows: "other times have no order",
        capacity: 100,
        starts: true,
        lines: r#"%+6(09:00)
!+7(09:05)
*+9(10:00)
%+10(10:01)
*+11(01:00)
&+12(00:30)
%+13(00:20)
%+14(10:00)
%+15(00:10)
%+16(00:10)
$+2(00:01)
"#,
        replies: r#"^
^
^
^
^
^
^
^
^
^
^
^
_204
"#,
    },
];

#[test]
fn part_1(rt: HostRuntime) {
    for row in &ROWS_1 {
        is_answered(&rt, rt.alloc(), row);
    }
}
