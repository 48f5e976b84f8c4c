//! Texts that are put together.
use acdm_board::Desk;
use acdm_sessions::{Sink, Source, run};
use bpf_helpers::Helpers;
use std::alloc::Global;
use std::process::Abort;

/// A slot that sets r0 to 0, and an exit, as digits.
pub(crate) const ZERO: &str = "b700000000000000";

pub(crate) const EXIT: &str = "9500000000000000";

pub(crate) fn push(rt: &impl Abort, text: &mut Vec<u8>, part: &str) {
    text.extend_from_slice(part.as_bytes())
        .expect(rt, "room for a part");
}

pub(crate) fn push_times(rt: &impl Abort, text: &mut Vec<u8>, part: &str, times: usize) {
    for _ in 0..times {
        push(rt, text, part);
    }
}

pub(crate) fn push_number(rt: &impl Abort, alloc: Global, text: &mut Vec<u8>, number: u64) {
    let digits = format!(in alloc; "{number}").expect(rt, "a number");
    push(rt, text, digits.as_str());
}

/// The replies of a desk to these lines.
pub(crate) fn replies_of<H: Helpers + Drop>(
    rt: &impl Abort,
    alloc: Global,
    lines: &[u8],
    desk: &mut Desk<H>,
) -> Vec<u8> {
    let mut reader = Source::new(lines);
    let mut writer = Sink::new(Vec::new(alloc));
    run(alloc, &mut reader, &mut writer, desk).expect(rt, "a run");
    writer.into_inner()
}
