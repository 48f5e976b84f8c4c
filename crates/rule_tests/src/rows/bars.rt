//! What a milestone bars. Written by `bench/rows/rows.py`.
use crate::rows::{Row, is_answered};

static ROWS_1: [Row; 16] = [
    Row {
        shows: "milestone 15 bars 1",
        capacity: 100,
        starts: true,
        lines: r#"%+6(09:00)
!+7(09:05)
*+9(10:00)
%+10(10:01)
%+13(09:58)
%+14(10:02)
$+<
%+15(10:03)
$+<
"#,
        replies: r#"^
^
^
^
^
^
^
^
^
^
_204
"#,
    },
    Row {
        shows: "milestone 16 bars 2",
        capacity: 100,
        starts: true,
        lines: r#"*+9(10:00)
%+10(10:01)
%+13(09:58)
%+14(10:02)
%+15(10:03)
$+2(10:15)
%+16(10:12)
$+2(10:15)
"#,
        replies: r#"^
^
^
^
^
^
^
^
^
_204
"#,
    },
    Row {
        shows: "milestone 6 bars 3",
        capacity: 100,
        starts: true,
        lines: r#"$+3(08:00)
%+6(09:00)
$+3(08:00)
"#,
        replies: r#"^
^
^
^
_204
"#,
    },
    Row {
        shows: "milestone 6 bars 4",
        capacity: 100,
        starts: true,
        lines: r#"%+4(09:10)
%+6(09:00)
%+4(09:10)
"#,
        replies: r#"^
^
^
^
_204
"#,
    },
    Row {
        shows: "milestone 6 bars 5",
        capacity: 100,
        starts: true,
        lines: r#"%+5(09:08)
%+6(09:00)
%+5(09:08)
"#,
        replies: r#"^
^
^
^
_204
"#,
    },
    Row {
        shows: "milestone 7 bars 6",
        capacity: 100,
        starts: true,
        lines: r#"%+6(09:00)
%+6(09:00)
!+7(09:05)
%+6(09:00)
"#,
        replies: r#"^
^
^
^
^
_204
"#,
    },
    Row {
        shows: "milestone 15 bars 7",
        capacity: 100,
        starts: true,
        lines: r#"%+6(09:00)
!+7(09:05)
*+9(10:00)
%+10(10:01)
%+13(09:58)
%+14(10:02)
!+7(09:05)
%+15(10:03)
!+7(09:05)
"#,
        replies: r#"^
^
^
^
^
^
^
^
^
^
_204
"#,
    },
    Row {
        shows: "milestone 15 bars 8",
        capacity: 100,
        starts: true,
        lines: r#"%+6(09:00)
!+7(09:05)
*+9(10:00)
%+10(10:01)
%+13(09:58)
%+14(10:02)
*+8(09:06)
%+15(10:03)
*+8(09:06)
"#,
        replies: r#"^
^
^
^
^
^
^
^
^
^
_204
"#,
    },
    Row {
        shows: "milestone 14 bars 9",
        capacity: 100,
        starts: true,
        lines: r#"*+9(10:00)
%+10(10:01)
%+13(09:58)
*+9(10:00)
%+14(10:02)
*+9(10:00)
"#,
        replies: r#"^
^
^
^
^
^
^
_204
"#,
    },
    Row {
        shows: "milestone 15 bars 10",
        capacity: 100,
        starts: true,
        lines: r#"%+6(09:00)
!+7(09:05)
*+9(10:00)
%+10(10:01)
%+13(09:58)
%+14(10:02)
%+10(10:01)
%+15(10:03)
%+10(10:01)
"#,
        replies: r#"^
^
^
^
^
^
^
^
^
^
_204
"#,
    },
    Row {
        shows: "milestone 15 bars 11",
        capacity: 100,
        starts: true,
        lines: r#"%+6(09:00)
!+7(09:05)
*+9(10:00)
%+10(10:01)
%+13(09:58)
%+14(10:02)
*+11(09:40)
%+15(10:03)
*+11(09:40)
"#,
        replies: r#"^
^
^
^
^
^
^
^
^
^
_204
"#,
    },
    Row {
        shows: "milestone 15 bars 12",
        capacity: 100,
        starts: true,
        lines: r#"%+6(09:00)
!+7(09:05)
*+9(10:00)
%+10(10:01)
%+13(09:58)
%+14(10:02)
&+12(09:55)
%+15(10:03)
&+12(09:55)
"#,
        replies: r#"^
^
^
^
^
^
^
^
^
^
_204
"#,
    },
    Row {
        shows: "milestone 15 bars 13",
        capacity: 100,
        starts: true,
        lines: r#"%+6(09:00)
!+7(09:05)
*+9(10:00)
%+10(10:01)
%+13(09:58)
%+14(10:02)
%+13(09:58)
%+15(10:03)
%+13(09:58)
"#,
        replies: r#"^
^
^
^
^
^
^
^
^
^
_204
"#,
    },
    Row {
        shows: "milestone 15 bars 14",
        capacity: 100,
        starts: true,
        lines: r#"%+6(09:00)
!+7(09:05)
*+9(10:00)
%+10(10:01)
%+13(09:58)
%+14(10:02)
%+14(10:02)
%+15(10:03)
%+14(10:02)
"#,
        replies: r#"^
^
^
^
^
^
^
^
^
^
_204
"#,
    },
    Row {
        shows: "milestone 16 bars 15",
        capacity: 100,
        starts: true,
        lines: r#"*+9(10:00)
%+10(10:01)
%+13(09:58)
%+14(10:02)
%+15(10:03)
%+15(10:03)
%+16(10:12)
%+15(10:03)
"#,
        replies: r#"^
^
^
^
^
^
^
^
^
_204
"#,
    },
    Row {
        shows: "milestone 16 bars 16",
        capacity: 100,
        starts: true,
        lines: r#"*+9(10:00)
%+10(10:01)
%+13(09:58)
%+14(10:02)
%+15(10:03)
%+16(10:12)
%+16(10:12)
"#,
        replies: r#"^
^
^
^
^
^
^
^
_204
"#,
    },
];

#[test]
fn part_1(rt: HostRuntime) {
    for row in &ROWS_1 {
        is_answered(&rt, rt.alloc(), row);
    }
}
