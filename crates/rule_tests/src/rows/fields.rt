//! What a milestone, a schedule and a flight plan set. Written by `bench/rows/rows.py`.
use crate::rows::{Row, is_answered};

static ROWS_1: [Row; 31] = [
    Row {
        shows: "what milestone 2 sets",
        capacity: 100,
        starts: true,
        lines: r#"$+2(10:15)
&>
"#,
        replies: r#"^
^
^
~Y07U00j4784ba01UUUUUUUU`00
"#,
    },
    Row {
        shows: "what milestone 3 sets",
        capacity: 100,
        starts: true,
        lines: r#"$+3(08:00)
&>
"#,
        replies: r#"^
^
^
~Y0bU00j`00c083ba01UUUUUUUU
"#,
    },
    Row {
        shows: "what milestone 4 sets",
        capacity: 100,
        starts: true,
        lines: r#"%+4(09:10)
&>
"#,
        replies: r#"^
^
^
~Y13U00jU00000684ba01UUUUUUU0000
"#,
    },
    Row {
        shows: "what milestone 5 sets",
        capacity: 100,
        starts: true,
        lines: r#"%+5(09:08)
&>
"#,
        replies: r#"^
^
^
~Y23U00jU00000484ba01UUUUUUU0000
"#,
    },
    Row {
        shows: "what milestone 6 sets",
        capacity: 100,
        starts: true,
        lines: r#"%+6(09:00)
&>
"#,
        replies: r#"^
^
^
~Y43U00jUUfc83ba01UUUUUU`00
"#,
    },
    Row {
        shows: "what milestone 7 sets",
        capacity: 100,
        starts: true,
        lines: r#"%+6(09:00)
!+7(09:05)
&>
"#,
        replies: r#"^
^
^
^
~Yc3U00jUUfc83ba010184ba01UUUUUU
"#,
    },
    Row {
        shows: "what milestone 8 sets",
        capacity: 100,
        starts: true,
        lines: r#"%+6(09:00)
!+7(09:05)
*+8(09:06)
&>
"#,
        replies: r#"^
^
^
^
^
~Yc301UjUUfc83ba010184ba010284ba01UUUUU0000
"#,
    },
    Row {
        shows: "what milestone 9 sets",
        capacity: 100,
        starts: true,
        lines: r#"*+9(10:00)
&>
"#,
        replies: r#"^
^
^
~Y0302UjUUUU3884ba01UUUU`00
"#,
    },
    Row {
        shows: "what milestone 10 sets",
        capacity: 100,
        starts: true,
        lines: r#"*+9(10:00)
%+10(10:01)
&>
"#,
        replies: r#"^
^
^
^
~Y0306UjUUUU3884ba013984ba01UUUU
"#,
    },
    Row {
        shows: "what milestone 11 sets",
        capacity: 100,
        starts: true,
        lines: r#"*+9(10:00)
*+11(09:40)
&>
"#,
        replies: r#"^
^
^
^
~Y030aUjUUUU3884ba01`002484ba01UUU0000
"#,
    },
    Row {
        shows: "what milestone 12 sets",
        capacity: 100,
        starts: true,
        lines: r#"*+9(10:00)
&+12(09:55)
&>
"#,
        replies: r#"^
^
^
^
~Y0312UjUUUU3884ba01U00003384ba01UU`00
"#,
    },
    Row {
        shows: "what milestone 13 sets",
        capacity: 100,
        starts: true,
        lines: r#"*+9(10:00)
%+10(10:01)
%+13(09:58)
&>
"#,
        replies: r#"^
^
^
^
^
~Y0326UjUUUU3884ba013984ba01U00003684ba01UU
"#,
    },
    Row {
        shows: "what milestone 14 sets",
        capacity: 100,
        starts: true,
        lines: r#"*+9(10:00)
%+10(10:01)
%+13(09:58)
%+14(10:02)
&>
"#,
        replies: r#"^
^
^
^
^
^
~Y0366UjUUUU3884ba013984ba01U00003684ba013a84ba01U0000
"#,
    },
    Row {
        shows: "what milestone 15 sets",
        capacity: 100,
        starts: true,
        lines: r#"*+9(10:00)
%+10(10:01)
%+13(09:58)
%+14(10:02)
%+15(10:03)
&>
"#,
        replies: r#"^
^
^
^
^
^
^
~Y03e6UjUUUU3884ba013984ba01U00003684ba013a84ba013b84ba01`00
"#,
    },
    Row {
        shows: "what milestone 16 sets",
        capacity: 100,
        starts: true,
        lines: r#"*+9(10:00)
%+10(10:01)
%+13(09:58)
%+14(10:02)
%+15(10:03)
%+16(10:12)
&>
"#,
        replies: r#"^
^
^
^
^
^
^
^
~Y03e601`0000jUUUU3884ba013984ba01U00003684ba013a84ba013b84ba014484ba01
"#,
    },
    Row {
        shows: "a slot time is taken back",
        capacity: 100,
        starts: true,
        lines: r#"$+2(10:15)
$+2,"time":null}
&>
"#,
        replies: r#"^
^
^
^
~Y07U00jUUUUUUUUU0000
"#,
    },
    Row {
        shows: "a slot time that never was is taken back",
        capacity: 100,
        starts: true,
        lines: r#"$+2,"time":null}
&>
"#,
        replies: r#"^
^
^
~Y07U00jUUUUUUUUU0000
"#,
    },
    Row {
        shows: "a target that never was is taken back",
        capacity: 100,
        starts: true,
        lines: r#"*+9,"time":null}
&>
"#,
        replies: r#"^
^
^
~Y0302`040000jUUUUUUUUU0000
"#,
    },
    Row {
        shows: "a target is taken back",
        capacity: 100,
        starts: true,
        lines: r#"*+9(10:00)
%+10(10:01)
*+9,"time":null}
&>
"#,
        replies: r#"^
^
^
^
^
~Y0306`040000jUUUUUUUUU0000
"#,
    },
    Row {
        shows: "a radar update and the approach set one field",
        capacity: 100,
        starts: true,
        lines: r#"%+4(09:10)
%+5(09:08)
&>
%+4(09:10)
&>
"#,
        replies: r#"^
^
^
^
~Y33U00jU00000484ba01UUUUUUU0000
^
~Y33U00jU00000684ba01UUUUUUU0000
"#,
    },
    Row {
        shows: "flights of long numbers",
        capacity: 100,
        starts: false,
        lines: r#"!/
$report","flight":4294967303,"milestone":<
$report","flight":9223372036854775815,"milestone":<
$report","flight":18446744073709551615,"milestone":<
!schedule","flight":4294967295,J,K"stand":12}
!=
!schedule","flight":4294967303,J,K"stand":12}
$+<
!=
%report","flight":8589934599,"milestone":6(09:00)
"#,
        replies: r#"^
^
^
^
^
| 7:CDM13;4294967303:CDM01;9223372036854775815:CDM01;18446744073709551615:CDM01;4294967295:CDM13
^
^
| 9223372036854775815:CDM01;18446744073709551615:CDM01;4294967295:CDM13
_202
"#,
    },
    Row {
        shows: "what a schedule sets",
        capacity: 100,
        starts: false,
        lines: r#"1 29000520 APT {"cmd":"/
4 29000520 AO {"cmd":">
1 29000520 APT {"cmd":"schedule","flight":7,"callsign":"ZZZZZZZZ","type":"Q","reg":"QQQQQQQQ","dest":"Q","sobt":"2025-02-20T11:00:00Z","mttt":1,"exit":2,"exot":3,"stand":4}
4 29000520 AO {"cmd":">
"#,
        replies: r#"^
~07U00444c4837`004133323`0004441494243U`00004544444d`0001U0028000a000c0001053884ba01UUUUUUUUUU
^
~07U005a5a5a5a5a5a5a5a51U005151515151515151U000051U0001U0001000300040001027484ba01UUUUUUUUUU
"#,
    },
    Row {
        shows: "a schedule changes the callsign",
        capacity: 100,
        starts: false,
        lines: r#"1 29000520 APT {"cmd":"/
1 29000520 APT {"cmd":"schedule","flight":7,"callsign":"BAW1","type":"A320","reg":"DAIBC","dest":"EDDM",K"stand":12}
4 29000520 AO {"cmd":">
"#,
        replies: r#"^
^
~07U0042415731`004133323`0004441494243U`00004544444d`0001U0028000a000c0001053884ba01UUUUUUUUUU
"#,
    },
    Row {
        shows: "a schedule changes the scheduled type",
        capacity: 100,
        starts: false,
        lines: r#"1 29000520 APT {"cmd":"/
1 29000520 APT {"cmd":"schedule","flight":7,"callsign":"DLH7","type":"B738","reg":"DAIBC","dest":"EDDM",K"stand":12}
4 29000520 AO {"cmd":">
"#,
        replies: r#"^
^
~07U00444c4837`0042373338`004441494243U`00004544444d`0001U0028000a000c0001053884ba01UUUUUUUUUU
"#,
    },
    Row {
        shows: "a schedule changes the scheduled registration",
        capacity: 100,
        starts: false,
        lines: r#"1 29000520 APT {"cmd":"/
1 29000520 APT {"cmd":"schedule","flight":7,"callsign":"DLH7","type":"A320","reg":"GABCD","dest":"EDDM",K"stand":12}
4 29000520 AO {"cmd":">
"#,
        replies: r#"^
^
~07U00444c4837`004133323`0004741424344U`00004544444d`0001U0028000a000c0001053884ba01UUUUUUUUUU
"#,
    },
    Row {
        shows: "a schedule changes the scheduled destination",
        capacity: 100,
        starts: false,
        lines: r#"1 29000520 APT {"cmd":"/
1 29000520 APT {"cmd":"schedule","flight":7,"callsign":"DLH7","type":"A320","reg":"DAIBC","dest":"EGLL",K"stand":12}
4 29000520 AO {"cmd":">
"#,
        replies: r#"^
^
~07U00444c4837`004133323`0004441494243U`000045474c4c`0001U0028000a000c0001053884ba01UUUUUUUUUU
"#,
    },
    Row {
        shows: "a schedule changes the SOBT",
        capacity: 100,
        starts: false,
        lines: r#"1 29000520 APT {"cmd":"/
1 29000520 APT {"cmd":"schedule","flight":7,J,"sobt":"2025-02-20T11:00:00Z","mttt":40,"exit":5,"exot":10,"stand":12}
4 29000520 AO {"cmd":">
"#,
        replies: r#"^
^
~07U00444c4837`004133323`0004441494243U`00004544444d`0001U0028000a000c0001057484ba01UUUUUUUUUU
"#,
    },
    Row {
        shows: "a schedule changes the MTTT",
        capacity: 100,
        starts: false,
        lines: r#"1 29000520 APT {"cmd":"/
1 29000520 APT {"cmd":"schedule","flight":7,J,"sobt":"2025-02-20T10:00:00Z","mttt":1440,"exit":5,"exot":10,"stand":12}
4 29000520 AO {"cmd":">
"#,
        replies: r#"^
^
~07U00444c4837`004133323`0004441494243U`00004544444d`0001U00a0050a000c0001053884ba01UUUUUUUUUU
"#,
    },
    Row {
        shows: "a schedule changes the EXIT",
        capacity: 100,
        starts: false,
        lines: r#"1 29000520 APT {"cmd":"/
1 29000520 APT {"cmd":"schedule","flight":7,J,"sobt":"2025-02-20T10:00:00Z","mttt":40,"exit":255,"exot":10,"stand":12}
4 29000520 AO {"cmd":">
"#,
        replies: r#"^
^
~07U00444c4837`004133323`0004441494243U`00004544444d`0001U0028000a000c0001ff3884ba01UUUUUUUUUU
"#,
    },
    Row {
        shows: "a schedule changes the EXOT",
        capacity: 100,
        starts: false,
        lines: r#"1 29000520 APT {"cmd":"/
1 29000520 APT {"cmd":"schedule","flight":7,J,"sobt":"2025-02-20T10:00:00Z","mttt":40,"exit":5,"exot":1440,"stand":12}
4 29000520 AO {"cmd":">
"#,
        replies: r#"^
^
~07U00444c4837`004133323`0004441494243U`00004544444d`0001U002800a0050c0001053884ba01UUUUUUUUUU
"#,
    },
    Row {
        shows: "a schedule changes the stand",
        capacity: 100,
        starts: false,
        lines: r#"1 29000520 APT {"cmd":"/
1 29000520 APT {"cmd":"schedule","flight":7,J,K"stand":65535}
4 29000520 AO {"cmd":">
"#,
        replies: r#"^
^
~07U00444c4837`004133323`0004441494243U`00004544444d`0001U0028000a00ffff01053884ba01UUUUUUUUUU
"#,
    },
];

#[test]
fn part_1(rt: HostRuntime) {
    for row in &ROWS_1 {
        is_answered(&rt, rt.alloc(), row);
    }
}

static ROWS_2: [Row; 11] = [
    Row {
        shows: "what a flight plan sets",
        capacity: 100,
        starts: false,
        lines: r#"$+<
&>
$+1(11:00:00Z","callsign":"ZZZZZZZZ","type":"Q","reg":"QQQQQQQQ","dest":"Q"}
&>
"#,
        replies: r#"^
~07U00444c4837U00004133323U000004441494243U004544444d02`02U`01`00003884ba01UUUUUUUUU0000
^
~07U005a5a5a5a5a5a5a5a`0051U`00005151515151515151`0051`02`02U`01`00007484ba01UUUUUUUUU0000
"#,
    },
    Row {
        shows: "a flight plan changes the callsign",
        capacity: 100,
        starts: false,
        lines: r#"$+<
$+1(10:00:00Z","callsign":"BAW1","type":"A320","reg":"DAIBC","dest":"EDDM"}
&>
"#,
        replies: r#"^
^
~07U0042415731U00004133323U000004441494243U004544444d02`02U`01`00003884ba01UUUUUUUUU0000
"#,
    },
    Row {
        shows: "a flight plan changes the plan type",
        capacity: 100,
        starts: false,
        lines: r#"$+<
$+1(10:00:00Z","callsign":"DLH7","type":"B738","reg":"DAIBC","dest":"EDDM"}
&>
"#,
        replies: r#"^
^
~07U00444c4837U000042373338U00004441494243U004544444d02`02U`01`00003884ba01UUUUUUUUU0000
"#,
    },
    Row {
        shows: "a flight plan changes the plan registration",
        capacity: 100,
        starts: false,
        lines: r#"$+<
$+1(10:00:00Z","callsign":"DLH7","type":"A320","reg":"GABCD","dest":"EDDM"}
&>
"#,
        replies: r#"^
^
~07U00444c4837U00004133323U000004741424344U004544444d02`02U`01`00003884ba01UUUUUUUUU0000
"#,
    },
    Row {
        shows: "a flight plan changes the plan destination",
        capacity: 100,
        starts: false,
        lines: r#"$+<
$+1(10:00:00Z","callsign":"DLH7","type":"A320","reg":"DAIBC","dest":"EGLL"}
&>
"#,
        replies: r#"^
^
~07U00444c4837U00004133323U000004441494243U0045474c4c02`02U`01`00003884ba01UUUUUUUUU0000
"#,
    },
    Row {
        shows: "a flight plan changes the EOBT",
        capacity: 100,
        starts: false,
        lines: r#"$+<
$+1(11:00:00Z",J}
&>
"#,
        replies: r#"^
^
~07U00444c4837U00004133323U000004441494243U004544444d02`02U`01`00007484ba01UUUUUUUUU0000
"#,
    },
    Row {
        shows: "a flight plan keeps what the schedule set",
        capacity: 100,
        starts: false,
        lines: r#"!schedule","flight":7,"callsign":"BAW1","type":"A320","reg":"DAIBC","dest":"EDDM",K"stand":12}
$+<
&>
"#,
        replies: r#"^
^
~Y03U00jUUUUUUUUU0000
"#,
    },
    Row {
        shows: "a schedule keeps what the flight plan set",
        capacity: 100,
        starts: false,
        lines: r#"$+1(10:00:00Z","callsign":"BAW1","type":"A320","reg":"DAIBC","dest":"EDDM"}
!/
&>
"#,
        replies: r#"^
^
~Y03U00jUUUUUUUUU0000
"#,
    },
    Row {
        shows: "what reports leave alone",
        capacity: 100,
        starts: true,
        lines: r#"$+2(10:15)
$+3(08:00)
%+4(09:10)
%+5(09:08)
%+6(09:00)
!+7(09:05)
*+8(09:06)
*+9(10:00)
%+10(10:01)
*+11(09:40)
&+12(09:55)
%+13(09:58)
&>
%+14(10:02)
%+13(09:58)
&+12(09:55)
*+11(09:40)
%+10(10:01)
*+8(09:06)
$+2(10:15)
$+<
&>
"#,
        replies: r#"^
^
^
^
^
^
^
^
^
^
^
^
^
^
~Yff3fUj4784ba01c083ba010484ba01fc83ba010184ba010284ba013884ba013984ba012484ba013384ba013684ba01UU
^
^
^
^
^
^
^
^
~Yff7fUj4784ba01c083ba010484ba01fc83ba010184ba010284ba013884ba013984ba012484ba013384ba013684ba013a84ba01U0000
"#,
    },
    Row {
        shows: "what a flight plan leaves alone",
        capacity: 100,
        starts: false,
        lines: r#"$+<
*+9(10:00)
%+10(10:01)
*+11(09:40)
&+12(09:55)
%+13(09:58)
%+14(10:02)
$+2(10:15)
$+3(08:00)
%+4(09:10)
%+5(09:08)
%+6(09:00)
!+7(09:05)
*+8(09:06)
$+<
&>
!/
&>
$+2,"time":null}
&>
"#,
        replies: r#"^
^
^
^
^
^
^
^
^
^
^
^
^
^
^
~07U00444c4837U00004133323U000004441494243U004544444dfe7f000002U`01`00003884ba014784ba01c083ba010484ba01fc83ba010184ba010284ba013884ba013984ba012484ba013384ba013684ba013a84ba01U0000
^
~Yff7fUj4784ba01c083ba010484ba01fc83ba010184ba010284ba013884ba013984ba012484ba013384ba013684ba013a84ba01U0000
^
~Yff7fUj`00c083ba010484ba01fc83ba010184ba010284ba013884ba013984ba012484ba013384ba013684ba013a84ba01U0000
"#,
    },
    Row {
        shows: "what a target taken back leaves alone",
        capacity: 100,
        starts: true,
        lines: r#"$+2(10:15)
%+4(09:10)
%+6(09:00)
*+9(10:00)
%+10(10:01)
*+9,"time":null}
&>
"#,
        replies: r#"^
^
^
^
^
^
^
^
~Y5706`040000j4784ba01`000684ba01fc83ba01UUUUUU`00
"#,
    },
];

#[test]
fn part_2(rt: HostRuntime) {
    for row in &ROWS_2 {
        is_answered(&rt, rt.alloc(), row);
    }
}
