//! Standard streams that are closed when the program starts.

use std::fs::{Files, OpenOptions};
use std::io;
use std::os::fd::AsRawFd;

const NULL_DEVICE: &str = "/dev/null";

/// What stands in the places of closed standard streams. As long as it lives, no file and no
/// connection takes one of them, and each read and write there fails.
#[derive(Drop)]
pub(crate) struct Fillers<F> {
    _input: Option<F>,
    _first_output: Option<F>,
    _second_output: Option<F>,
}

/// Fills the places of closed standard streams: that of the input with the null device for writing
/// alone, those of the outputs with it for reading alone.
pub(crate) fn fill<Rt: Files>(rt: &Rt) -> io::Result<Fillers<Rt::File>>
where
    Rt::File: AsRawFd,
{
    let mut writing = OpenOptions::new();
    writing.write(true);
    let mut reading = OpenOptions::new();
    reading.read(true);
    Ok(Fillers {
        _input: filler(rt, &writing, 0)?,
        _first_output: filler(rt, &reading, 2)?,
        _second_output: filler(rt, &reading, 2)?,
    })
}

// The null device, where it takes a place up to this one: what is opened takes the lowest that is free.
fn filler<Rt: Files>(rt: &Rt, options: &OpenOptions, last: i32) -> io::Result<Option<Rt::File>>
where
    Rt::File: AsRawFd,
{
    let file = options.open(rt, NULL_DEVICE)?;
    if file.as_raw_fd() <= last {
        Ok(Some(file))
    } else {
        Ok(None)
    }
}
