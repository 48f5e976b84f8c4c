//! What stands in the lists of replies.
ghost use Rattle.std.specs.Prelude.{◌≡◌, ◌+◌, ◌≤◌, ◌++◌, length};
ghost use Rattle.std.specs.List.{flat_map};
ghost use Rattle.acdm_wire.specs.declared.text.TheConstants.{LONGEST_TEXT};
ghost use Rattle.acdm_wire.specs.Replies.{alerted_text, unloaded_text, next_text};

use crate::text::{LONGEST_TEXT, TextBuffer};
use acdm_alerts::push_names;
use acdm_slots::Unloaded;
use acdm_step::Alerted;

// The most bytes of a text behind which any item has room, with a `;` before it.
const FULL: usize = LONGEST_TEXT - 239;

/// What stands in a list of a reply.
pub(crate) trait ListItem {
    ghost use Rattle.std.specs.Prelude.{ℕ, List};

    /// What is told of it.
    ghost item_text: { Self → List ℕ };

    /// What is told of it, at most 238 bytes, behind what stands there.
    fn push_to(&self, text: &mut TextBuffer)
        requires { length text.old + 238 ≤ LONGEST_TEXT }
        ensures { text.new ≡ text.old ++ item_text self.now };
}

impl ListItem for Alerted {
    ghost item_text = { alerted_text };

    // Its number, and its alerts.
    fn push_to(&self, text: &mut TextBuffer) {
        text.push_number(self.flight);
        text.push(b":");
        push_names(self.alerts, &mut text.bytes);
    }
}

impl ListItem for Unloaded {
    ghost item_text = { unloaded_text };

    // Its slot, and its first fault.
    fn push_to(&self, text: &mut TextBuffer) {
        text.push_number(u64::from(self.milestone.number()));
        text.push(b":");
        text.push(self.kind.name().as_bytes());
        text.push(b":");
        text.push_number(u64::from(self.code));
        text.push(b":");
        text.push_number(self.slot as u64);
    }
}

impl TextBuffer {
    /// The first item of a list, in place of what stands there.
    pub(crate) fn put_first<T: ListItem>(&mut self, item: &T)
        ensures { self.new ≡ T.item_text item.now }
    {
        self.bytes.clear();
        item.push_to(self);
    }

    /// Another item of it, in place of what stands there.
    pub(crate) fn put_next<T: ListItem>(&mut self, item: &T)
        ensures { self.new ≡ next_text T.item_text item.now }
    {
        self.bytes.clear();
        self.push_next(item);
    }

    // Another item of it, behind what stands there.
    fn push_next<T: ListItem>(&mut self, item: &T)
        requires { length self.old + 239 ≤ LONGEST_TEXT }
        ensures { self.new ≡ self.old ++ next_text T.item_text item.now }
    {
        self.push(b";");
        item.push_to(self);
    }

    /// The next items of it, as many as surely have room behind what stands there, and answers those left.
    pub(crate) fn push_more<'a, T: ListItem>(&mut self, items: &'a [T]) -> &'a [T]
        ensures whole { self.old ++ flat_map (next_text T.item_text) items.now
            ≡ self.new ++ flat_map (next_text T.item_text) result.now }
        ensures fewer { length result.now ≤ length items.now }
    {
        let mut rest = items;
        while let Some((item, more)) = rest.split_first() {
            if self.bytes.len() > FULL {
                return rest;
            }
            self.push_next(item);
            rest = more;
        }
        rest
    }
}
