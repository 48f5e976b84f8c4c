//! A reader that failed before, and goes on: that is no want of memory.
use acdm_board::Desk;
use acdm_journal::{Fault, audit};
use acdm_sessions::{RunError, Sink, Source, run};
use acdm_tables::{Tables, known_sigs};
use bpf_helpers::{Bank, Helpers, Sigs};
use std::alloc::Global;
use std::io::{self, Read};
use std::process::Abort;

/// Fails once, and then gives its text.
#[derive(Drop)]
struct Late<'a> {
    has_failed: bool,
    text: &'a [u8],
}

impl Read for Late<'_> {
    fn read(&mut self, buf: &mut [u8]) -> io::Result<usize> {
        if !self.has_failed {
            self.has_failed = true;
            return Err(io::Error::from(io::ErrorKind::BrokenPipe));
        }
        let count = self.text.len().min(buf.len());
        buf[..count].copy_from_slice(&self.text[..count]);
        self.text = &self.text[count..];
        Ok(count)
    }
}

fn source_of(text: &str) -> Source<Late<'_>> {
    Source::new(Late {
        has_failed: false,
        text: text.as_bytes(),
    })
}

fn runs<H: Helpers + Drop>(rt: &impl Abort, alloc: Global, desk: &mut Desk<H>) {
    let mut reader = source_of("1 29000700 APT {\"cmd\":\"tick\"}\n1 29000700 APT {}\n");
    let mut writer = Sink::new(Vec::new(alloc));
    assert!(rt; reader.faults() == 0);
    let first = run(alloc, &mut reader, &mut writer, desk);
    assert!(rt; first == Err(RunError::Read) && reader.faults() == 1);
    goes_on(rt, alloc, &mut reader, &mut writer, desk);
    assert!(rt; writer.into_inner().as_slice() == "ok 0\nbad 102\n".as_bytes());
}

// What failed once does not fail again.
fn goes_on<H: Helpers + Drop>(
    rt: &impl Abort,
    alloc: Global,
    reader: &mut Source<Late<'_>>,
    writer: &mut Sink<Vec<u8>>,
    desk: &mut Desk<H>,
) {
    assert!(rt; reader.faults() == 1 && writer.faults() == 0);
    run(alloc, reader, writer, desk).expect(rt, "a second run");
    assert!(rt; reader.faults() == 1);
}

fn runs_with<H: Helpers + Drop>(rt: &impl Abort, alloc: Global, helpers: H) {
    let mut desk = Desk::new(alloc, helpers, 10).expect(rt, "a desk");
    runs(rt, alloc, &mut desk);
    drop(desk);
}

#[test]
fn lines_go_on_after_a_failure(rt: HostRuntime) {
    let alloc = rt.alloc();
    runs_with(&rt, alloc, Bank::new(alloc).expect(&rt, "a bank"));
}

fn audits(rt: &impl Abort, alloc: Global, sigs: &Sigs) {
    let mut reader = source_of("0 1 29000700 APT 0 0 tick\n1 1 29000700 NM 201 0 tick\n");
    assert!(rt; reader.faults() == 0);
    let first = audit(alloc, &mut reader, sigs);
    assert!(rt; matches!(first, Err(Fault::Read)));
    audits_on(rt, alloc, &mut reader, sigs);
}

fn audits_on(rt: &impl Abort, alloc: Global, reader: &mut Source<Late<'_>>, sigs: &Sigs) {
    assert!(rt; reader.faults() == 1);
    let second = audit(alloc, reader, sigs).ok();
    assert!(rt; second == Some(2) && reader.faults() == 1);
}

#[test]
fn an_audit_goes_on_after_a_failure(rt: HostRuntime) {
    let tables = Tables::built_in(rt.alloc()).expect(&rt, "tables");
    let sigs = known_sigs(rt.alloc(), &tables).expect(&rt, "signatures");
    audits(&rt, rt.alloc(), &sigs);
    drop(sigs);
}
