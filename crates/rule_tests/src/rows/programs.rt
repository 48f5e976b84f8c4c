//! Programs of both kinds at each milestone. Written by `bench/rows/rows.py`.
use crate::rows::{Row, is_answered};

static ROWS_1: [Row; 1] = [Row {
    shows: "programs: both kinds at each milestone, layout 1",
    capacity: 200,
    starts: false,
    lines: r#"!S1,"kind":"tobt","program":"bf3U00f4U00f2U007`80ffffffV
!S1,"kind":"alert","program":"61106Uf3U06704000004`0f4U00f2U007`88f78afcV
!S2,"kind":"tobt","program":"bf3U00f4U00f2U007`80ffffffV
!S2,"kind":"alert","program":"61106Uf3U06704000004`0f4U00f2U007`88f78afcV
!S3,"kind":"tobt","program":"bf3U00f4U00f2U007`80ffffffV
!S3,"kind":"alert","program":"61106Uf3U06704000004`0f4U00f2U007`88f78afcV
!S4,"kind":"tobt","program":"bf3U00f4U00f2U007`80ffffffV
!S4,"kind":"alert","program":"61106Uf3U06704000004`0f4U00f2U007`88f78afcV
!S5,"kind":"tobt","program":"bf3U00f4U00f2U007`80ffffffV
!S5,"kind":"alert","program":"61106Uf3U06704000004`0f4U00f2U007`88f78afcV
!S6,"kind":"tobt","program":"bf3U00f4U00f2U007`80ffffffV
!@61106Uf3U06704000004`0f4U00f2U007`88f78afcV
!?bf3U00f4U00f2U007`80ffffffV
!S7,"kind":"alert","program":"61106Uf3U06704000004`0f4U00f2U007`88f78afcV
!S8,"kind":"tobt","program":"bf3U00f4U00f2U007`80ffffffV
!S8,"kind":"alert","program":"61106Uf3U06704000004`0f4U00f2U007`88f78afcV
!S9,"kind":"tobt","program":"bf3U00f4U00f2U007`80ffffffV
!S9,"kind":"alert","program":"61106Uf3U06704000004`0f4U00f2U007`88f78afcV
!S10,"kind":"tobt","program":"bf3U00f4U00f2U007`80ffffffV
!S10,"kind":"alert","program":"61106Uf3U06704000004`0f4U00f2U007`88f78afcV
!S11,"kind":"tobt","program":"bf3U00f4U00f2U007`80ffffffV
!S11,"kind":"alert","program":"61106Uf3U06704000004`0f4U00f2U007`88f78afcV
!S12,"kind":"tobt","program":"bf3U00f4U00f2U007`80ffffffV
!S12,"kind":"alert","program":"61106Uf3U06704000004`0f4U00f2U007`88f78afcV
!S13,"kind":"tobt","program":"bf3U00f4U00f2U007`80ffffffV
!S13,"kind":"alert","program":"61106Uf3U06704000004`0f4U00f2U007`88f78afcV
!S14,"kind":"tobt","program":"bf3U00f4U00f2U007`80ffffffV
!S14,"kind":"alert","program":"61106Uf3U06704000004`0f4U00f2U007`88f78afcV
!S15,"kind":"tobt","program":"bf3U00f4U00f2U007`80ffffffV
!S15,"kind":"alert","program":"61106Uf3U06704000004`0f4U00f2U007`88f78afcV
!S16,"kind":"tobt","program":"bf3U00f4U00f2U007`80ffffffV
!S16,"kind":"alert","program":"61106Uf3U06704000004`0f4U00f2U007`88f78afcV
!/
$+<
!=
$+2,"time":null}
!=
$+3(08:00)
!=
%+4(09:10)
!=
%+5(09:08)
!=
%+6(09:00)
!=
!+7(09:05)
!=
*+8(09:06)
!=
*+9,"time":null}
!=
*+9(10:00)
!=
%+10(10:01)
!=
*+11(09:40)
!=
&+12(09:55)
!=
%+13(09:58)
!=
%+14(10:02)
!=
%+15(10:03)
!=
%+16(10:12)
!=
"#,
    replies: r#"^
^
^
^
^
^
^
^
^
^
^
^
^
^
^
^
^
^
^
^
^
^
^
^
^
^
^
^
^
^
^
^
^
^
| 7:CDM08,CDM09,LOC00,LOC04
^
| 7:CDM08,CDM09,LOC01,LOC05
^
| 7:CDM08,CDM09,LOC00,LOC01,LOC04,LOC05
^
| 7:CDM08,CDM09,CDM07a,LOC02,LOC06
^
| 7:CDM08,CDM09,CDM07a,LOC00,LOC02,LOC04,LOC06
^
| 7:CDM08,CDM09,CDM07a,LOC01,LOC02,LOC05,LOC06
^
| 7:CDM08,CDM09,CDM07a,LOC00,LOC01,LOC02,LOC04,LOC05,LOC06
^
| 7:CDM08,CDM09,CDM07a,LOC03,LOC07
^
| 7:CDM08,CDM09,CDM07a,LOC00,LOC03,LOC04,LOC07
^
| 7:CDM08,CDM09,CDM07a,LOC00,LOC03,LOC04,LOC07
^
| 7:CDM08,CDM09,CDM07a,LOC01,LOC03,LOC05,LOC07
^
| 7:CDM08,CDM07a,LOC00,LOC01,LOC03,LOC04,LOC05,LOC07
^
| 7:CDM08,CDM07a,LOC02,LOC03,LOC06,LOC07
^
| 7:CDM08,CDM07a,LOC00,LOC02,LOC03,LOC04,LOC06,LOC07
^
| 7:CDM08,CDM14,CDM07a,LOC00,LOC02,LOC03,LOC05,LOC06,LOC07
^
| 7:CDM08,CDM14,CDM07a,LOC00,LOC02,LOC03,LOC04,LOC05,LOC06,LOC07
^
| 7:CDM08,CDM14,CDM07a,LOC00,LOC02,LOC03,LOC08
"#,
}];

#[test]
fn part_1(rt: HostRuntime) {
    for row in &ROWS_1 {
        is_answered(&rt, rt.alloc(), row);
    }
}

static ROWS_2: [Row; 4] = [
    Row {
        shows: "programs: both kinds at each milestone, layout 2",
        capacity: 200,
        starts: false,
        lines: r#"!migrate"}
!S1,"kind":"tobt","program":"bf3U00f4U00f2U007`60ffffff95U00","length":160}
!S1,"kind":"alert","program":"61106Uf3U06704000004`0f4U00f2U007`68f78afc95U00","length":160}
!S2,"kind":"tobt","program":"bf3U00f4U00f2U007`60ffffff95U00","length":160}
!S2,"kind":"alert","program":"61106Uf3U06704000004`0f4U00f2U007`68f78afc95U00","length":160}
!S3,"kind":"tobt","program":"bf3U00f4U00f2U007`60ffffff95U00","length":160}
!S3,"kind":"alert","program":"61106Uf3U06704000004`0f4U00f2U007`68f78afc95U00","length":160}
!S4,"kind":"tobt","program":"bf3U00f4U00f2U007`60ffffff95U00","length":160}
!S4,"kind":"alert","program":"61106Uf3U06704000004`0f4U00f2U007`68f78afc95U00","length":160}
!S5,"kind":"tobt","program":"bf3U00f4U00f2U007`60ffffff95U00","length":160}
!S5,"kind":"alert","program":"61106Uf3U06704000004`0f4U00f2U007`68f78afc95U00","length":160}
!S6,"kind":"tobt","program":"bf3U00f4U00f2U007`60ffffff95U00","length":160}
!@61106Uf3U06704000004`0f4U00f2U007`68f78afc95U00","length":160}
!?bf3U00f4U00f2U007`60ffffff95U00","length":160}
!S7,"kind":"alert","program":"61106Uf3U06704000004`0f4U00f2U007`68f78afc95U00","length":160}
!S8,"kind":"tobt","program":"bf3U00f4U00f2U007`60ffffff95U00","length":160}
!S8,"kind":"alert","program":"61106Uf3U06704000004`0f4U00f2U007`68f78afc95U00","length":160}
!S9,"kind":"tobt","program":"bf3U00f4U00f2U007`60ffffff95U00","length":160}
!S9,"kind":"alert","program":"61106Uf3U06704000004`0f4U00f2U007`68f78afc95U00","length":160}
!S10,"kind":"tobt","program":"bf3U00f4U00f2U007`60ffffff95U00","length":160}
!S10,"kind":"alert","program":"61106Uf3U06704000004`0f4U00f2U007`68f78afc95U00","length":160}
!S11,"kind":"tobt","program":"bf3U00f4U00f2U007`60ffffff95U00","length":160}
!S11,"kind":"alert","program":"61106Uf3U06704000004`0f4U00f2U007`68f78afc95U00","length":160}
!S12,"kind":"tobt","program":"bf3U00f4U00f2U007`60ffffff95U00","length":160}
!S12,"kind":"alert","program":"61106Uf3U06704000004`0f4U00f2U007`68f78afc95U00","length":160}
!S13,"kind":"tobt","program":"bf3U00f4U00f2U007`60ffffff95U00","length":160}
!S13,"kind":"alert","program":"61106Uf3U06704000004`0f4U00f2U007`68f78afc95U00","length":160}
!S14,"kind":"tobt","program":"bf3U00f4U00f2U007`60ffffff95U00","length":160}
!S14,"kind":"alert","program":"61106Uf3U06704000004`0f4U00f2U007`68f78afc95U00","length":160}
!S15,"kind":"tobt","program":"bf3U00f4U00f2U007`60ffffff95U00","length":160}
!S15,"kind":"alert","program":"61106Uf3U06704000004`0f4U00f2U007`68f78afc95U00","length":160}
!S16,"kind":"tobt","program":"bf3U00f4U00f2U007`60ffffff95U00","length":160}
!S16,"kind":"alert","program":"61106Uf3U06704000004`0f4U00f2U007`68f78afc95U00","length":160}
!/
$+<
!=
$+2,"time":null}
!=
$+3(08:00)
!=
%+4(09:10)
!=
%+5(09:08)
!=
%+6(09:00)
!=
!+7(09:05)
!=
*+8(09:06)
!=
*+9,"time":null}
!=
*+9(10:00)
!=
%+10(10:01)
!=
*+11(09:40)
!=
&+12(09:55)
!=
%+13(09:58)
!=
%+14(10:02)
!=
%+15(10:03)
!=
%+16(10:12)
!=
"#,
        replies: r#"v -
^
^
^
^
^
^
^
^
^
^
^
^
^
^
^
^
^
^
^
^
^
^
^
^
^
^
^
^
^
^
^
^
^
^
| 7:CDM08,CDM09,LOC00,LOC04
^
| 7:CDM08,CDM09,LOC01,LOC05
^
| 7:CDM08,CDM09,LOC00,LOC01,LOC04,LOC05
^
| 7:CDM08,CDM09,CDM07a,LOC02,LOC06
^
| 7:CDM08,CDM09,CDM07a,LOC00,LOC02,LOC04,LOC06
^
| 7:CDM08,CDM09,CDM07a,LOC01,LOC02,LOC05,LOC06
^
| 7:CDM08,CDM09,CDM07a,LOC00,LOC01,LOC02,LOC04,LOC05,LOC06
^
| 7:CDM08,CDM09,CDM07a,LOC03,LOC07
^
| 7:CDM08,CDM09,CDM07a,LOC00,LOC03,LOC04,LOC07
^
| 7:CDM08,CDM09,CDM07a,LOC00,LOC03,LOC04,LOC07
^
| 7:CDM08,CDM09,CDM07a,LOC01,LOC03,LOC05,LOC07
^
| 7:CDM08,CDM07a,LOC00,LOC01,LOC03,LOC04,LOC05,LOC07
^
| 7:CDM08,CDM07a,LOC02,LOC03,LOC06,LOC07
^
| 7:CDM08,CDM07a,LOC00,LOC02,LOC03,LOC04,LOC06,LOC07
^
| 7:CDM08,CDM14,CDM07a,LOC00,LOC02,LOC03,LOC05,LOC06,LOC07
^
| 7:CDM08,CDM14,CDM07a,LOC00,LOC02,LOC03,LOC04,LOC05,LOC06,LOC07
^
| 7:CDM08,CDM14,CDM07a,LOC00,LOC02,LOC03,LOC08
"#,
    },
    Row {
        shows: "programs: a report without a time",
        capacity: 100,
        starts: true,
        lines: r#"*+9(10:00)
!S9,"kind":"tobt","program":"bf3U007`3c`V
*+9,"time":null}
!=
!S2,"kind":"tobt","program":"bf3U007`3d`V
$+2,"time":null}
!=
&>
"#,
        replies: r#"^
^
^
^
^
| -
^
^
| -
~Y0702UjUUUU3984ba01UUUU`00
"#,
    },
    Row {
        shows: "programs: the milestone as a target",
        capacity: 100,
        starts: true,
        lines: r#"!S6,"kind":"tobt","program":"bf4U0V
%+6(09:00)
&>
"#,
        replies: r#"^
^
^
^
~Y43`00400000jUUfc83ba01UUUUUU`00
"#,
    },
    Row {
        shows: "programs: the length as a target",
        capacity: 100,
        starts: true,
        lines: r#"!S6,"kind":"tobt","program":"bf2U0V
%+6(09:00)
&>
"#,
        replies: r#"^
^
^
^
~Y43`00400000jUUfc83ba01UUUUUU`00
"#,
    },
];

#[test]
fn part_2(rt: HostRuntime) {
    for row in &ROWS_2 {
        is_answered(&rt, rt.alloc(), row);
    }
}
