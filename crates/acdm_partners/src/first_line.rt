//! What the first bytes of a connection say of it.
ghost use Rattle.std.specs.Prelude.{◌≡◌};
ghost use Rattle.acdm_partners.specs.FirstLine.{has_line_feed, is_blank, judged, opens_object};

/// What the first bytes of a connection say of it.
#[derive(Clone, Copy, Debug, PartialEq, Eq)]
pub enum FirstLine {
    /// Its first line is not there yet.
    Waits,
    /// Its first line may be a command: it is served.
    Command,
    /// Its first line is no command, as the head of a request for a page: it is no partner.
    Foreign,
}

// A space, a tab or a carriage return.
fn is_blank(byte: u8) -> bool
    ensures { result ≡ is_blank byte }
{
    byte == b' ' || byte == b'\t' || byte == b'\r'
}

// Whether the first byte that is no blank opens an object.
fn opens_object(text: &[u8]) -> bool
    ensures { result ≡ opens_object text.now }
{
    let mut rest = text;
    while let Some((byte, more)) = rest.split_first() {
        if !is_blank(*byte) {
            return *byte == b'{';
        }
        rest = more;
    }
    false
}

// Whether a line feed stands in a text.
fn has_line_feed(text: &[u8]) -> bool
    ensures { result ≡ has_line_feed text.now }
{
    let mut rest = text;
    while let Some((byte, more)) = rest.split_first() {
        if *byte == b'\n' {
            return true;
        }
        rest = more;
    }
    false
}

/// What the first bytes of a connection say of it, where a line has at most so many, and whether they are
/// all that comes, of which the last line needs no line feed.
pub fn judge_first(most: usize, is_all: bool, text: &[u8]) -> FirstLine
    ensures { result ≡ judged most is_all text.now }
{
    if !is_all && text.len() < most && !has_line_feed(text) {
        return FirstLine::Waits;
    }
    if opens_object(text) {
        FirstLine::Command
    } else {
        FirstLine::Foreign
    }
}
