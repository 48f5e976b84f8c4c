//! Keys that stand twice in a line.
use crate::sessions::are_answered;

// Keys that stand twice, of which the last counts, and numbers of other forms.
static TWICE: [(&str, &str); 6] = [
    (r#"{"cmd":"tack","cmd":"tick"}"#, "ok 0\n"),
    (r#"{"cmd":"tick","cmd":"tack"}"#, "bad 102\n"),
    (r#"{"cmd":"tick","cmd":7}"#, "bad 102\n"),
    (r#"{"cmd":"show","flight":0,"flight":7}"#, "no 0 202\n"),
    (r#"{"cmd":"show","flight":7,"flight":0}"#, "bad 104\n"),
    (r#"{"cmd":"show","flight":7e0}"#, "bad 103\n"),
];

#[test]
fn the_last_of_a_key_counts(rt: HostRuntime) {
    for (json, reply) in &TWICE {
        let line = ["1 29000580 APT ", *json];
        are_answered(&rt, rt.alloc(), *json, &line, 1, *reply);
    }
}
