//! A text that is added to, with bytes ready behind its end.
ghost use Rattle.std.specs.Prelude.{◌≡◌, ◌++◌, ◌∷◌, ◌+◌, ◌≤◌, [], OnOk, OnErr, cond, length, take, ◌<◌, ◌^◌};

use std::alloc::{AllocError, Global};
use std::marker::Model;

/// How many bytes are made ready at once.
const STEP: usize = 1_024;

static ZEROS: [u8; STEP] = [0; STEP];

/// A text. Bytes behind its end are ready, so that a piece is added by one test and a copy.
#[derive(Drop)]
pub(crate) struct Room {
    bytes: Vec<u8>,
    len: usize,
}

impl Model for Room {
    ghost use Rattle.std.specs.Prelude.{◌-◌, ◌≤◌, length, take};
    ghost use Rattle.acdm_feed.specs.Rooms.{RoomView};

    ghost Value = { RoomView };

    ghost view = { λ r. record {
      items = take r.len r.bytes.items;
      ready = length r.bytes.items - r.len;
    } };

    ghost invariant = { λ r. r.len ≤ length r.bytes.items };
}

impl Room {
    /// Behind what stands in a text.
    pub(crate) fn new(bytes: Vec<u8>) -> Room
        ensures { result.items ≡ bytes.items }
    {
        let len = bytes.len();
        Room { bytes, len }
    }

    /// The text.
    pub(crate) fn whole(self) -> Vec<u8>
        ensures { result.items ≡ self.items }
    {
        let Room { mut bytes, len } = self;
        bytes.truncate(len);
        bytes
    }

    /// The first bytes of the text, so many of them.
    pub(crate) fn first(self, count: usize) -> Vec<u8>
        ensures { result.items ≡ take count self.items }
    {
        let mut bytes = self.whole();
        bytes.truncate(count);
        bytes
    }

    /// Adds a piece, behind a comma where that is asked for. `Err` only where memory was refused; nothing was added
    /// then.
    #[inline(always)]
    pub(crate) fn add(&mut self, comma: bool, piece: &[u8]) -> Result<(), AllocError>
        ensures adds { OnOk result (self.new.items
            ≡ self.old.items ++ (cond comma (44 ∷ []) [] ++ piece.now)) }
        ensures refused { OnErr result (self.new.items ≡ self.old.items) }
    {
        self.make_ready(piece.len() + 1)?;
        self.put(comma, piece);
        Ok(())
    }

    /// Adds a text between quotes, behind a comma where that is asked for. `Err` only where memory was refused; nothing
    /// was added then.
    #[inline(always)]
    pub(crate) fn add_quoted(&mut self, comma: bool, text: &[u8]) -> Result<(), AllocError>
        ensures adds { OnOk result (self.new.items
            ≡ self.old.items ++ (cond comma (44 ∷ []) [] ++ 34 ∷ (text.now ++ 34 ∷ []))) }
        ensures refused { OnErr result (self.new.items ≡ self.old.items) }
    {
        self.make_ready(text.len() + 3)?;
        self.put_quoted(comma, text);
        Ok(())
    }

    /// Adds two pieces, behind a comma where that is asked for. `Err` only where memory was refused; nothing was added
    /// then.
    #[inline(always)]
    pub(crate) fn add_pair(
        &mut self,
        comma: bool,
        one: &[u8],
        other: &[u8],
    ) -> Result<(), AllocError>
        requires { length one.now + length other.now < 2 ^ 62 }
        ensures adds { OnOk result (self.new.items
            ≡ self.old.items ++ (cond comma (44 ∷ []) [] ++ (one.now ++ other.now))) }
        ensures refused { OnErr result (self.new.items ≡ self.old.items) }
    {
        self.make_ready(one.len() + other.len() + 1)?;
        self.put_pair(comma, one, other);
        Ok(())
    }

    /// Where its memory comes from.
    pub(crate) fn allocator(&self) -> Global {
        *self.bytes.allocator()
    }

    // Has so many bytes ready.
    #[inline(always)]
    fn make_ready(&mut self, count: usize) -> Result<(), AllocError>
        ensures items { self.new.items ≡ self.old.items }
        ensures ready { OnOk result (count ≤ self.new.ready) }
    {
        if count <= self.bytes.len() - self.len {
            return Ok(());
        }
        self.grow(count)
    }

    #[cold]
    #[inline(never)]
    fn grow(&mut self, count: usize) -> Result<(), AllocError>
        ensures items { self.new.items ≡ self.old.items }
        ensures ready { OnOk result (count ≤ self.new.ready) }
    {
        let mut ready = self.bytes.len() - self.len;
        while ready < count {
            self.bytes.extend_from_slice(&ZEROS)?;
            ready += STEP;
        }
        Ok(())
    }

    // Adds a piece where bytes are ready for it.
    #[inline(always)]
    fn put(&mut self, comma: bool, piece: &[u8])
        requires { length piece.now + 1 ≤ self.old.ready }
        ensures { self.new.items ≡ self.old.items ++ (cond comma (44 ∷ []) [] ++ piece.now) }
    {
        let bytes = self.bytes.as_mut_slice();
        let start = place_comma(bytes, self.len, comma);
        self.len = place(bytes, start, piece);
    }

    // Adds two pieces where bytes are ready for them.
    #[inline(always)]
    fn put_pair(&mut self, comma: bool, one: &[u8], other: &[u8])
        requires { length one.now + length other.now + 1 ≤ self.old.ready }
        ensures { self.new.items
            ≡ self.old.items ++ (cond comma (44 ∷ []) [] ++ (one.now ++ other.now)) }
    {
        let bytes = self.bytes.as_mut_slice();
        let start = place_comma(bytes, self.len, comma);
        let middle = place(bytes, start, one);
        self.len = place(bytes, middle, other);
    }

    // Adds a text between quotes where bytes are ready for it.
    #[inline(always)]
    fn put_quoted(&mut self, comma: bool, text: &[u8])
        requires { length text.now + 3 ≤ self.old.ready }
        ensures { self.new.items
            ≡ self.old.items ++ (cond comma (44 ∷ []) [] ++ 34 ∷ (text.now ++ 34 ∷ [])) }
    {
        let bytes = self.bytes.as_mut_slice();
        let start = place_comma(bytes, self.len, comma);
        let begin = place(bytes, start, b"\"");
        let end = place(bytes, begin, text);
        self.len = place(bytes, end, b"\"");
    }
}

// Stores a comma, which counts where it is asked for.
#[inline(always)]
fn place_comma(bytes: &mut [u8], at: usize, comma: bool) -> usize
    requires { at < length bytes.old }
    ensures bytes { take result bytes.new ≡ take at bytes.old ++ cond comma (44 ∷ []) [] }
    ensures end { result ≤ at + 1 }
{
    bytes[at] = b',';
    if comma { at + 1 } else { at }
}

// Stores a piece.
#[inline(always)]
fn place(bytes: &mut [u8], at: usize, piece: &[u8]) -> usize
    requires { at + length piece.now ≤ length bytes.old }
    ensures bytes { take result bytes.new ≡ take at bytes.old ++ piece.now }
    ensures end { result ≡ at + length piece.now }
{
    let end = at + piece.len();
    bytes[at..end].copy_from_slice(piece);
    end
}
