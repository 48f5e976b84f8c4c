//! What the head of a request asks for.
ghost use Rattle.std.specs.Prelude.{◌≡◌, All, IfSome, IsNone, codes, length, map, option_map};
ghost use Rattle.httparse.specs.Grammar.{HasNoRequest, RequestHead};
ghost use Rattle.httparse.specs.Spans.{IsHeaderWithin, IsRequestAt, IsRequestWithin, header_bytes};
ghost use Rattle.acdm_web.specs.Wanted.{Asks, IsLast, Wants};
ghost use Rattle.acdm_web.specs.Wanted.{is_at, is_bracketed, is_given, is_meant, is_name, is_numeric, is_own};
ghost use Rattle.acdm_web.specs.Wanted.{before, host_of, is_own_host, is_same_site, last_of, path_of, value_of};
ghost use Rattle.acdm_web.specs.Wanted.{IsAt};

use acdm_lines::number_in;
use httparse::Status;
use httparse::spans::{EMPTY_HEADER_SPAN, HeaderSpan, RequestSpans, parse_request};

/// How many fields a head has at most. One that has more is no request.
const MOST_FIELDS: usize = 64;

/// What a browser asks for.
#[derive(Clone, Copy, Debug, PartialEq, Eq)]
pub enum Wanted {
    /// The page: `GET /`.
    Page,
    /// The events of the feed, `GET /events`: from the entry of this number on, where the browser has
    /// had those before it.
    Events(Option<u64>),
    /// Something else by `GET` or `HEAD`, which is not there.
    Nothing,
    /// Another method than `GET` and `HEAD`.
    OtherMethod,
    /// Something of another host, by its field `Host`, or asked by a page of another site, by its `Origin`.
    Misdirected,
    /// No request of HTTP/1.0 or 1.1 with at most 64 fields.
    NoRequest,
    /// Whatever is asked for, by a browser for which no place is left; no request asks for it.
    Busy,
}

/// What a browser asks for, and whether for the head of the answer alone.
#[derive(Clone, Copy, Debug, PartialEq, Eq)]
pub struct BrowserRequest {
    pub wanted: Wanted,
    /// Whether the method is `HEAD`.
    pub is_head: bool,
}

// Whether two names are one, in whatever case.
fn is_name(name: &[u8], other: &[u8]) -> bool
    ensures { result ≡ is_name name.now other.now }
{
    name.eq_ignore_ascii_case(other)
}

// The value of the first field with a name, in whatever case.
fn value_of<'b>(bytes: &'b [u8], fields: &[HeaderSpan], name: &[u8]) -> Option<&'b [u8]>
    requires { All (IsHeaderWithin (length bytes.now)) fields.now }
    ensures { option_map (λ t. t.now) result
        ≡ value_of name.now (map (header_bytes bytes.now) fields.now) }
{
    let mut rest = fields;
    while let Some((field, more)) = rest.split_first() {
        if is_name(field.name.of(bytes), name) {
            return Some(field.value.of(bytes));
        }
        rest = more;
    }
    None
}

// The number that the first field with the name `Last-Event-ID` has, if there is one.
fn last_number(bytes: &[u8], fields: &[HeaderSpan]) -> Option<u64>
    requires { All (IsHeaderWithin (length bytes.now)) fields.now }
    ensures { IsLast (last_of (map (header_bytes bytes.now) fields.now)) result }
{
    match value_of(bytes, fields, b"last-event-id") {
        Some(text) => number_in(text),
        None => None,
    }
}

// What stands before the first byte that is this one, or all.
fn before(mark: u8, text: &[u8]) -> &[u8]
    ensures { result.now ≡ before mark text.now }
{
    let mut rest = text;
    let mut count = 0;
    while let Some((byte, more)) = rest.split_first() {
        if *byte == mark {
            return &text[..count];
        }
        count += 1;
        rest = more;
    }
    &text[..count]
}

// An authority without its port.
fn host_of(authority: &[u8]) -> &[u8]
    ensures { result.now ≡ host_of authority.now }
{
    before(b':', authority)
}

// A target without what stands behind its question mark.
fn path_of(target: &[u8]) -> &[u8]
    ensures { result.now ≡ path_of target.now }
{
    before(b'?', target)
}

// Whether it has digits and dots alone, as an IPv4 address.
fn is_numeric(host: &[u8]) -> bool
    ensures { result ≡ is_numeric host.now }
{
    let mut rest = host;
    while let Some((byte, more)) = rest.split_first() {
        if *byte != b'.' && !(*byte >= b'0' && *byte <= b'9') {
            return false;
        }
        rest = more;
    }
    true
}

// Whether it begins with a bracket, as an IPv6 address.
fn is_bracketed(authority: &[u8]) -> bool
    ensures { result ≡ is_bracketed authority.now }
{
    match authority.first() {
        Some(first) => *first == b'[',
        None => false,
    }
}

// Whether a host is the one of a name, if there is a name.
fn is_given(name: Option<&str>, host: &[u8]) -> bool
    ensures { result ≡ is_given (option_map (λ n. n.now) name.entry) host.now }
{
    match name {
        Some(name) => is_name(host, name.as_bytes()),
        None => false,
    }
}

// Whether an authority names this board.
fn is_own(name: Option<&str>, authority: &[u8]) -> bool
    ensures { result ≡ is_own (option_map (λ n. n.now) name.entry) authority.now }
{
    if is_bracketed(authority) {
        return true;
    }
    let host = host_of(authority);
    is_numeric(host) || is_name(host, b"localhost") || is_given(name, host)
}

// Whether the field `Host` names this board, where there is one.
fn is_own_host(name: Option<&str>, host: Option<&[u8]>) -> bool
    ensures { result ≡ is_own_host (option_map (λ n. n.now) name.entry) (option_map (λ h. h.now) host.entry) }
{
    match host {
        Some(authority) => is_own(name, authority),
        None => true,
    }
}

// Whether an origin is a scheme and behind it an authority.
fn is_at(origin: &[u8], scheme: &[u8], authority: &[u8]) -> bool
    ensures { result ≡ is_at origin.now scheme.now authority.now }
{
    if origin.len() < scheme.len() {
        return false;
    }
    is_name(&origin[..scheme.len()], scheme) && is_name(&origin[scheme.len()..], authority)
}

// Whether a page of this site asks.
fn is_same_site(origin: Option<&[u8]>, host: Option<&[u8]>) -> bool
    ensures { result ≡ is_same_site (option_map (λ o. o.now) origin.entry) (option_map (λ h. h.now) host.entry) }
{
    let Some(origin) = origin else {
        return true;
    };
    let Some(authority) = host else {
        return false;
    };
    is_at(origin, b"http://", authority) || is_at(origin, b"https://", authority)
}

// Whether this board is meant by the fields of a head.
fn is_meant(name: Option<&str>, bytes: &[u8], fields: &[HeaderSpan]) -> bool
    requires { All (IsHeaderWithin (length bytes.now)) fields.now }
    ensures { result ≡ is_meant (option_map (λ n. n.now) name.entry) (map (header_bytes bytes.now) fields.now) }
{
    let host = value_of(bytes, fields, b"host");
    let origin = value_of(bytes, fields, b"origin");
    is_own_host(name, host) && is_same_site(origin, host)
}

// What is at a path, by a head with these fields.
fn found_at(path: &[u8], bytes: &[u8], fields: &[HeaderSpan]) -> Wanted
    requires { All (IsHeaderWithin (length bytes.now)) fields.now }
    ensures { IsAt path.now (last_of (map (header_bytes bytes.now) fields.now)) result }
{
    if path == b"/".as_slice() {
        return Wanted::Page;
    }
    if path == b"/events".as_slice() {
        return Wanted::Events(last_number(bytes, fields));
    }
    Wanted::Nothing
}

// What a whole head asks for, of a board with this name.
fn asked_in(
    name: Option<&str>,
    bytes: &[u8],
    head: RequestSpans,
    fields: &[HeaderSpan],
) -> BrowserRequest
    requires within { IsRequestWithin bytes.now fields.now head }
    ensures { (h : RequestHead) → IsRequestAt bytes.now fields.now head h
        → Asks (option_map (λ n. n.now) name.entry) h result }
{
    let method = head.method.of(bytes);
    let is_head = method == b"HEAD".as_slice();
    if !is_meant(name, bytes, &fields[..head.headers]) {
        return BrowserRequest {
            wanted: Wanted::Misdirected,
            is_head,
        };
    }
    if !is_head && method != b"GET".as_slice() {
        return BrowserRequest {
            wanted: Wanted::OtherMethod,
            is_head,
        };
    }
    let wanted = found_at(path_of(head.path.of(bytes)), bytes, &fields[..head.headers]);
    BrowserRequest { wanted, is_head }
}

/// What the bytes that a browser has sent ask for, of a board with this name, if it has one: those of the
/// head of a request, and maybe more. `None` where they are not all of a head yet.
pub fn wanted_in(bytes: &[u8], name: Option<&str>) -> Option<BrowserRequest>
    ensures wanted { IfSome result (Wants (option_map (λ n. n.now) name.entry) bytes.now) }
    ensures more { IsNone result → HasNoRequest bytes.now }
{
    let mut fields = [EMPTY_HEADER_SPAN; MOST_FIELDS];
    match parse_request(bytes, &mut fields) {
        Ok(Status::Complete(head)) => Some(asked_in(name, bytes, head, &fields)),
        Ok(Status::Partial) => None,
        Err(_) => Some(BrowserRequest {
            wanted: Wanted::NoRequest,
            is_head: false,
        }),
    }
}
