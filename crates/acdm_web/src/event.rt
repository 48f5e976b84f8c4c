//! Lines of the feed as events for browsers.
ghost use Rattle.std.specs.Prelude.{◌≡◌, ◌++◌, OnOk};
ghost use Rattle.acdm_web.specs.Events.{event_text};

use itoa::Buffer;
use std::alloc::AllocError;

/// Adds a line, with the line feed that ends it, as an event of a stream for browsers (the HTML
/// standard, "Server-sent events"). Its id is the number of the entry that comes next, with which a
/// browser that lost its connection goes on. `Err` only where memory was refused.
pub fn push_event(text: &mut Vec<u8>, next: u64, line: &[u8]) -> Result<(), AllocError>
    ensures { OnOk result (text.new.items ≡ text.old.items ++ event_text next line.now) }
{
    let mut digits = Buffer::new();
    text.extend_from_slice(b"id: ")?;
    text.extend_from_slice(digits.format(next).as_bytes())?;
    text.extend_from_slice(b"\ndata: ")?;
    text.extend_from_slice(line)?;
    text.push(b'\n')?;
    Ok(())
}
