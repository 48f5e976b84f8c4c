//! A plain JSON object, read in one pass: texts without escapes, whole numbers and nulls.
ghost use Rattle.std.specs.Prelude.{◌≡◌, [], ◌∷◌, ◌<◌, ◌≤◌, true, position, length, slice_index, Some, IfSome};
ghost use Rattle.json.specs.Text.{content, plain};
ghost use Rattle.json.specs.Lex.{lex, between, in_string};
ghost use Rattle.serde_json.specs.Data.{null, number, unsigned, object, no_members};
ghost use Rattle.serde_json.specs.Read.{read};
ghost use Rattle.acdm_wire.specs.Plain.{BeginsWith, BeginsMember, Completes};
ghost use Rattle.acdm_wire.specs.Plain.{value_data, with_members, is_stop, is_no_digit, ends_value};

use arrayvec::ArrayVec;
use fast_float::Numeral;

/// The value of a member.
#[derive(Clone, Copy, Drop)]
pub(crate) enum PlainValue<'a> {
    Null,
    Number(u64),
    Text(&'a str),
}

/// A member of a plain object.
#[derive(Clone, Copy, Drop)]
pub(crate) struct PlainMember<'a> {
    pub(crate) name: &'a [u8],
    pub(crate) value: PlainValue<'a>,
}

impl<'a> Default for PlainMember<'a> {
    fn default() -> PlainMember<'a> {
        PlainMember {
            name: &[],
            value: PlainValue::Null,
        }
    }
}

/// How many members a plain object has at most.
pub(crate) const MOST_MEMBERS: usize = 16;

// What follows this byte.
fn after(bytes: &[u8], byte: u8) -> Option<&[u8]>
    ensures { IfSome result (λ rest. bytes.now ≡ byte ∷ rest.now) }
{
    let (first, rest) = bytes.split_first()?;
    if *first == byte { Some(rest) } else { None }
}

// What follows a space, where one stands.
#[tactic(auto, using(crate::proofs::PlainText::space_passes))]
fn after_space(bytes: &[u8]) -> &[u8]
    ensures { lex between result.now ≡ lex between bytes.now }
{
    match after(bytes, b' ') {
        Some(rest) => rest,
        None => bytes,
    }
}

// The place of the first byte that no text without escapes has.
#[inline(never)]
fn stop_in(bytes: &[u8]) -> Option<usize>
    ensures place { result ≡ position is_stop bytes.now }
    ensures inside { IfSome result (λ i. i < length bytes.now) }
{
    bytes
        .iter()
        .position(|byte| *byte == b'"' || *byte == b'\\' || *byte < b' ')
}

// A text without escapes up to its closing quote, and what follows that.
fn text_in(bytes: &[u8]) -> Option<(&[u8], &[u8])>
    ensures { IfSome result (λ r. (content plain bytes.now ≡ Some r.0.now)
        × (lex in_string bytes.now ≡ lex between r.1.now)) }
{
    let end = stop_in(bytes)?;
    if bytes[end] != b'"' {
        return None;
    }
    Some((&bytes[..end], &bytes[end + 1..]))
}

// The place of the first byte that is no digit.
fn end_of_digits(bytes: &[u8]) -> Option<usize>
    ensures place { result ≡ position is_no_digit bytes.now }
    ensures inside { IfSome result (λ i. i < length bytes.now) }
{
    bytes.iter().position(|byte| !byte.is_ascii_digit())
}

fn ends_value(bytes: &[u8]) -> bool
    ensures { result ≡ ends_value bytes.now }
{
    match bytes.first() {
        Some(byte) => *byte == b',' || *byte == b'}',
        None => false,
    }
}

// Whether so many digits are a number: some, and no zero before others.
fn is_number(bytes: &[u8], end: usize) -> bool
    requires { end ≤ length bytes.now }
    ensures { result ≡ true → (0 < end) × (slice_index bytes.now 0 ≡ 48 → end ≡ 1) }
{
    end == 1 || (end > 1 && bytes[0] != b'0')
}

// A whole number of 64 bits, and what follows it.
fn number_in(bytes: &[u8]) -> Option<(u64, &[u8])>
    ensures { IfSome result (λ r. BeginsWith bytes.now (number (unsigned r.0)) r.1.now) }
{
    let end = end_of_digits(bytes)?;
    if !is_number(bytes, end) {
        return None;
    }
    let rest = &bytes[end..];
    if !ends_value(rest) {
        return None;
    }
    let number = Numeral::scan(&bytes[..end]).to_u64()?;
    Some((number, rest))
}

// What follows `null`.
fn null_in(bytes: &[u8]) -> Option<&[u8]>
    ensures { IfSome result (λ rest. BeginsWith bytes.now null rest.now) }
{
    let rest = after(after(after(after(bytes, b'n')?, b'u')?, b'l')?, b'l')?;
    if ends_value(rest) { Some(rest) } else { None }
}

fn quoted_in(bytes: &[u8]) -> Option<(PlainValue<'_>, &[u8])>
    ensures { IfSome result (λ r. BeginsWith bytes.now (value_data r.0) r.1.now) }
{
    let (text, rest) = text_in(after(bytes, b'"')?)?;
    let Ok(text) = str::from_utf8(text) else {
        return None;
    };
    Some((PlainValue::Text(text), rest))
}

// The value of a member, and what follows it.
fn value_in(bytes: &[u8]) -> Option<(PlainValue<'_>, &[u8])>
    ensures { IfSome result (λ r. BeginsWith bytes.now (value_data r.0) r.1.now) }
{
    match bytes.first()? {
        b'"' => quoted_in(bytes),
        b'n' => Some((PlainValue::Null, null_in(bytes)?)),
        _ => {
            let (number, rest) = number_in(bytes)?;
            Some((PlainValue::Number(number), rest))
        }
    }
}

// A member, and what follows it.
fn member_in(bytes: &[u8]) -> Option<(PlainMember<'_>, &[u8])>
    ensures { IfSome result (λ r. BeginsMember bytes.now r.0.name.now (value_data r.0.value) r.1.now) }
{
    let (name, rest) = text_in(after(after_space(bytes), b'"')?)?;
    let (value, rest) = value_in(after_space(after(rest, b':')?))?;
    Some((PlainMember { name, value }, rest))
}

// Whether an object goes on and ends with the text, from behind its opening brace or a comma; its
// members are put behind those found.
fn members_in<'a>(bytes: &'a [u8], found: &mut ArrayVec<PlainMember<'a>, MOST_MEMBERS>) -> bool
    ensures { result ≡ true → Completes bytes.now (with_members found.old.items no_members)
        (with_members found.new.items no_members) }
{
    let mut rest = bytes;
    'member: for _ in 0..MOST_MEMBERS {
        let Some((member, behind)) = member_in(rest) else {
            return false;
        };
        if found.is_full() {
            return false;
        }
        found.push(member);
        let Some((mark, behind)) = behind.split_first() else {
            return false;
        };
        if *mark != b',' {
            return *mark == b'}' && behind.is_empty();
        }
        rest = behind;
    }
    false
}

/// Whether the text is a plain object: at most `MOST_MEMBERS` texts without escapes, whole numbers
/// of 64 bits and nulls, with one space at most before each name and each value. Then its members
/// are found; otherwise nothing is said of the text.
pub(crate) fn plain_in<'a>(
    bytes: &'a [u8],
    found: &mut ArrayVec<PlainMember<'a>, MOST_MEMBERS>,
) -> bool
    requires { found.old.items ≡ [] }
    ensures { result ≡ true
        → read bytes.now ≡ Some (object (with_members found.new.items no_members)) }
{
    match after(bytes, b'{') {
        Some(rest) => members_in(rest, found),
        None => false,
    }
}
