//! What is written to a file in which a journal is kept, where flushes wait for the disk and where they
//! do not. The file is in the folder that tests run in.
use acdm_keeping::{Found, Named, Paths, Synced, copy_bytes, open};
use acdm_lines::{Sink, Source};
use std::alloc::Global;
use std::cell::RefCell;
use std::fs::{self, File, Files};
use std::io::{self, ErrorKind, Write};
use std::process::Abort;

const KEPT: &str = "kept-by-a-writer.txt";

const TAKEN: &str = "taken-from-a-writer.txt";

const WRITTEN: &str = "written-meanwhile.txt";

// Whether a file was not opened since somebody else has.
fn is_in_use(opened: io::Result<File>) -> bool {
    match opened {
        Ok(_) => false,
        Err(error) => error.kind() == ErrorKind::WouldBlock,
    }
}

// Writes a line at the end of the file, and flushes it.
fn add_line<Rt: Files<File = File> + Paths + AllocGlobal + Abort + Clone + Drop>(
    rt: &Rt,
    is_synced: bool,
) {
    let file = open(rt, KEPT).ok().expect(rt, "the file");
    let named = Named::new(rt.alloc(), KEPT, &file)
        .ok()
        .expect(rt, "a name");
    let mut writer = Synced::new(rt.clone().expect(rt, "a runtime"), file, named, is_synced);
    let written = writer.write(b"kept\n").ok().expect(rt, "a line");
    assert!(rt; written == 5 && writer.flush().is_ok());
    // Nobody else opens it meanwhile.
    assert!(rt; is_in_use(open(rt, KEPT)));
}

// A flush of a file that was removed, or that somebody else has written to, fails.
#[test]
fn a_file_that_is_not_as_written_fails(rt: HostRuntime) {
    let alloc = rt.alloc();
    for is_removed in [true, false] {
        let _ = fs::remove_file(&rt, TAKEN);
        let file = open(&rt, TAKEN).ok().expect(&rt, "the file");
        let named = Named::new(alloc, TAKEN, &file).ok().expect(&rt, "a name");
        let same = named.copy(alloc).expect(&rt, "a name");
        let own = rt.clone().expect(&rt, "a runtime");
        let mut writer = Synced::new(own, file, named, false);
        assert!(rt; writer.write(b"kept\n").ok() == Some(5) && writer.flush().is_ok());
        assert!(rt; same.stands(&rt));
        if is_removed {
            let _ = fs::remove_file(&rt, TAKEN);
        } else {
            let _ = fs::write(&rt, TAKEN, b"less");
        }
        assert!(rt; same.failure().is_none());
        assert!(rt; writer.flush().is_err() && !same.stands(&rt));
        // The other name of the file knows why.
        assert!(rt; matches!(same.failure(), Some(error) if error.kind() == ErrorKind::NotFound));
    }
    let _ = fs::remove_file(&rt, TAKEN);
}

// The system, of which a file is asked just before one more line is written to it.
#[derive(Drop)]
struct BeforeWrite<'a, Rt: Drop> {
    rt: &'a Rt,
    writer: RefCell<Synced<Rt>>,
}

impl<Rt: Paths + Drop> Paths for BeforeWrite<'_, Rt> {
    fn file_at(&self, path: &str) -> Option<Found> {
        let found = self.rt.file_at(path);
        if let Ok(mut writer) = self.writer.try_borrow_mut() {
            let _ = writer.write(b"more\n");
        }
        found
    }

    fn put_text(&self, alloc: Global, path: &str, text: &[u8]) -> io::Result<()> {
        self.rt.put_text(alloc, path, text)
    }
}

// A file to which more is written while it is looked at stands as before.
#[test]
fn a_file_stands_while_it_is_written(rt: HostRuntime) {
    let alloc = rt.alloc();
    let _ = fs::remove_file(&rt, WRITTEN);
    let file = open(&rt, WRITTEN).ok().expect(&rt, "the file");
    let named = Named::new(alloc, WRITTEN, &file).ok().expect(&rt, "a name");
    let same = named.copy(alloc).expect(&rt, "a name");
    let own = rt.clone().expect(&rt, "a runtime");
    let looking = BeforeWrite {
        rt: &rt,
        writer: RefCell::new(Synced::new(own, file, named, false)),
    };
    assert!(rt; same.stands(&looking));
    assert!(rt; rt.file_at(WRITTEN).map(|found| found.bytes) == Some(5));
    let _ = fs::remove_file(&rt, WRITTEN);
}

// What is copied of a text of so many bytes, where so many are asked for.
fn copied(rt: &(impl AllocGlobal + Abort), length: usize, bytes: u64) -> Option<usize> {
    let mut text = Vec::new(rt.alloc());
    for count in 0..length {
        text.push((count % 251) as u8).expect(rt, "room for a byte");
    }
    let mut reader = Source::new(text.as_slice());
    let mut writer = Sink::new(Vec::new(rt.alloc()));
    let done = copy_bytes(&mut reader, &mut writer, bytes);
    let taken = writer.into_inner();
    assert!(rt; text.starts_with(taken.as_slice()));
    match done {
        Ok(()) => Some(taken.len()),
        Err(error) => {
            assert!(rt; error.kind() == ErrorKind::UnexpectedEof);
            None
        }
    }
}

// Just so many bytes are copied, also where that is more than are copied at once; none further is.
#[test]
fn the_first_bytes_are_copied(rt: HostRuntime) {
    assert!(rt; copied(&rt, 0, 0) == Some(0));
    assert!(rt; copied(&rt, 0, 1).is_none());
    assert!(rt; copied(&rt, 3, 2) == Some(2));
    assert!(rt; copied(&rt, 70_000, 65_535) == Some(65_535));
    assert!(rt; copied(&rt, 70_000, 65_537) == Some(65_537));
    assert!(rt; copied(&rt, 140_000, 131_073) == Some(131_073));
    assert!(rt; copied(&rt, 65_536, 65_537).is_none());
}

#[test]
fn lines_stand_in_the_file_in_order(rt: HostRuntime) {
    let _ = fs::remove_file(&rt, KEPT);
    add_line(&rt, true);
    add_line(&rt, false);
    let text = fs::read_to_string(&rt, KEPT).ok().expect(&rt, "the file");
    assert!(rt; text.as_str() == "kept\nkept\n");
    let _ = fs::remove_file(&rt, KEPT);
}
