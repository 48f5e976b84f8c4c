//! The reading of a file of settings.

ghost use Rattle.std.specs.Prelude.{◌≡◌, ◌++◌, [], ◌∷◌, IfOk, OnOk, codes, map, option_and_then, option_map, string_bytes, Some};
ghost use Rattle.std.specs.Fmt.{decimal};
ghost use Rattle.toml.specs.Data.{as_integer};
ghost use Rattle.acdm_settings.specs.declared.reading.ValueKind.TheVariants.{Partners};
ghost use Rattle.toml.specs.View.{array_view, table_view, view};
ghost use Rattle.acdm_settings.specs.Settings.{GivesView, IsWrong, Reads, add_kind, add_setting, is_partner};
ghost use Rattle.acdm_settings.specs.Settings.{is_address, is_file, is_flag, is_number};
ghost use Rattle.acdm_settings.specs.Settings.{flag_words, kind_of, natural, option_of, partner_word, partners_from, with_value, words_from};

use crate::fault::{SettingFault, SettingsError};
use acdm_tables::line_at;
use itoa::Buffer;
use std::alloc::{AllocError, Global};
use toml::value::Array;
use toml::{Table, Value};

/// How many bytes the text of a file may have.
pub const MOST_TEXT: usize = 65_536;

// Which value a key has.
#[derive(Clone, Copy, Debug, PartialEq, Eq)]
pub(crate) enum ValueKind {
    // True or false.
    Flag,
    // A whole number from 0.
    Number,
    // A text.
    Words,
    // A list of partners' words.
    Partners,
}

// Whether a key has true or false.
fn is_flag(key: &str) -> bool
    ensures { result ≡ is_flag key.now }
{
    key == "again" || key == "strict" || key == "sync"
}

// Whether it has a whole number.
fn is_number(key: &str) -> bool
    ensures { result ≡ is_number key.now }
{
    key == "journal" || key == "pace" || key == "second" || key == "tick"
}

// Whether it has the name of a file.
fn is_file(key: &str) -> bool
    ensures { result ≡ is_file key.now }
{
    key == "keep" || key == "log" || key == "save" || key == "tables"
}

// Whether it has an address, or the name by which browsers may ask there.
fn is_address(key: &str) -> bool
    ensures { result ≡ is_address key.now }
{
    key == "changes"
        || key == "control"
        || key == "peer"
        || key == "watch"
        || key == "web"
        || key == "web-name"
}

// Which value a key has, if there is such a key.
fn kind_of(key: &str) -> Option<ValueKind>
    ensures { result ≡ kind_of key.now }
{
    if is_flag(key) {
        Some(ValueKind::Flag)
    } else if is_number(key) {
        Some(ValueKind::Number)
    } else if is_file(key) || is_address(key) {
        Some(ValueKind::Words)
    } else if key == "partners" {
        Some(ValueKind::Partners)
    } else {
        None
    }
}

// What is wrong at a key.
fn wrong(alloc: Global, key: &str, why: SettingFault) -> SettingsError
    ensures { IsWrong key.now why result }
{
    match Vec::from_slice(alloc, key.as_bytes()) {
        Ok(key) => SettingsError::Wrong { key, why },
        Err(_) => SettingsError::Memory,
    }
}

// The option of a key.
fn option_of(alloc: Global, key: &str) -> Result<String, AllocError>
    ensures { IfOk result (λ word. string_bytes word ≡ option_of key.now) }
{
    let mut word = String::from_str(alloc, "--")?;
    word.push_str(key)?;
    Ok(word)
}

// The option of a key, with a value.
fn with_value(alloc: Global, key: &str, value: &str) -> Result<String, AllocError>
    ensures { IfOk result (λ word. string_bytes word ≡ with_value key.now value.now) }
{
    let mut word = option_of(alloc, key)?;
    word.push_str("=")?;
    word.push_str(value)?;
    Ok(word)
}

// Adds a word.
fn with_word(mut words: Vec<String>, word: String) -> Result<Vec<String>, AllocError>
    ensures { IfOk result (λ v. map (λ s. string_bytes s) v.items
        ≡ map (λ s. string_bytes s) words.items ++ string_bytes word ∷ []) }
{
    words.push(word)?;
    Ok(words)
}

// Whether a text may be a partner's word.
fn is_partner(text: &str) -> bool
    ensures { result ≡ is_partner text.now }
{
    match text.as_bytes().first() {
        Some(byte) => *byte != b'-',
        None => false,
    }
}

// A partner's word.
fn partner_word(value: &Value) -> Option<&str>
    ensures { option_map (λ t. t.now) result ≡ partner_word (view value.now) }
{
    match value.as_str() {
        Some(text) if is_partner(text) => Some(text),
        _ => None,
    }
}

// Adds the words of a list of partners. `None` where one of them is none.
fn with_partners(
    alloc: Global,
    mut words: Vec<String>,
    list: &Array,
) -> Result<Option<Vec<String>>, AllocError>
    ensures { IfOk result (λ w. option_map (λ v. map (λ s. string_bytes s) v.items) w
        ≡ partners_from (map (λ s. string_bytes s) words.items) (array_view list.now)) }
{
    let mut rest = list.as_slice();
    while let Some((value, more)) = rest.split_first() {
        let Some(text) = partner_word(value) else {
            return Ok(None);
        };
        words = with_word(words, String::from_str(alloc, text)?)?;
        rest = more;
    }
    Ok(Some(words))
}

// Adds the word of a flag, where it is set.
fn with_flag(
    alloc: Global,
    words: Vec<String>,
    key: &str,
    is_set: bool,
) -> Result<Vec<String>, AllocError>
    ensures { IfOk result (λ v. map (λ s. string_bytes s) v.items
        ≡ flag_words (map (λ s. string_bytes s) words.items) key.now is_set) }
{
    if is_set {
        return with_word(words, option_of(alloc, key)?);
    }
    Ok(words)
}

// Adds an option with a number.
fn with_number(
    alloc: Global,
    words: Vec<String>,
    key: &str,
    number: u64,
) -> Result<Vec<String>, AllocError>
    ensures { IfOk result (λ v. map (λ s. string_bytes s) v.items
        ≡ map (λ s. string_bytes s) words.items ++ with_value key.now (decimal number) ∷ []) }
{
    let mut digits = Buffer::new();
    with_word(words, with_value(alloc, key, digits.format(number))?)
}

// A whole number from 0.
fn natural(value: &Value) -> Option<u64>
    ensures { result ≡ option_and_then natural (as_integer (view value.now)) }
{
    match value.as_integer() {
        Some(number) => u64::try_from(number).ok(),
        None => None,
    }
}

// Adds the words of partners.
fn add_partners(
    alloc: Global,
    words: Vec<String>,
    key: &str,
    value: &Value,
) -> Result<Vec<String>, SettingsError>
    ensures { GivesView (λ v. map (λ s. string_bytes s) v.items) result
        (add_kind (map (λ s. string_bytes s) words.items) key.now (Some Partners) (view value.now)) }
{
    let Some(list) = value.as_array() else {
        return Err(wrong(alloc, key, SettingFault::NoPartners));
    };
    match with_partners(alloc, words, list)? {
        Some(words) => Ok(words),
        None => Err(wrong(alloc, key, SettingFault::NoPartners)),
    }
}

// Adds what a value stands for at a key of this kind.
fn add_kind(
    alloc: Global,
    words: Vec<String>,
    key: &str,
    kind: Option<ValueKind>,
    value: &Value,
) -> Result<Vec<String>, SettingsError>
    ensures { GivesView (λ v. map (λ s. string_bytes s) v.items) result
        (add_kind (map (λ s. string_bytes s) words.items) key.now kind (view value.now)) }
{
    match kind {
        Some(ValueKind::Flag) => match value.as_bool() {
            Some(is_set) => Ok(with_flag(alloc, words, key, is_set)?),
            None => Err(wrong(alloc, key, SettingFault::NoFlag)),
        },
        Some(ValueKind::Number) => match natural(value) {
            Some(number) => Ok(with_number(alloc, words, key, number)?),
            None => Err(wrong(alloc, key, SettingFault::NoNumber)),
        },
        Some(ValueKind::Words) => match value.as_str() {
            Some(text) => Ok(with_word(words, with_value(alloc, key, text)?)?),
            None => Err(wrong(alloc, key, SettingFault::NoText)),
        },
        Some(ValueKind::Partners) => add_partners(alloc, words, key, value),
        None => Err(wrong(alloc, key, SettingFault::Unknown)),
    }
}

// Adds what a value stands for at a key.
fn add_setting(
    alloc: Global,
    words: Vec<String>,
    key: &str,
    value: &Value,
) -> Result<Vec<String>, SettingsError>
    ensures { GivesView (λ v. map (λ s. string_bytes s) v.items) result
        (add_setting (map (λ s. string_bytes s) words.items) key.now (view value.now)) }
{
    add_kind(alloc, words, key, kind_of(key), value)
}

// The words that the members of a table stand for.
fn words_of(alloc: Global, table: &Table) -> Result<Vec<String>, SettingsError>
    ensures { GivesView (λ v. map (λ s. string_bytes s) v.items) result (words_from [] (table_view table.now)) }
{
    let mut words = Vec::new(alloc);
    for (key, value) in table.iter() {
        words = match add_setting(alloc, words, key.as_str(), value) {
            Ok(words) => words,
            Err(error) => return Err(error),
        };
    }
    Ok(words)
}

/// The words of `serve` that the text of a file of settings stands for, in the order of its keys. Each key but
/// `partners` is an option of `serve` without its hyphens: `again` and `sync` are true or false, `journal`, `pace` and
/// `tick` whole numbers, the others texts. `partners` is a list of the words of partners. Which values an option takes
/// is told where the words are read.
///
/// `TooLong` where it has more than 65,536 bytes, `NoToml` where it is none, `Wrong` of the first key that is wrong.
pub fn words_in(alloc: Global, text: &[u8]) -> Result<Vec<String>, SettingsError>
    ensures { Reads (λ v. map (λ s. string_bytes s) v.items) text.now result }
{
    if text.len() > MOST_TEXT {
        return Err(SettingsError::TooLong);
    }
    match toml::table_from_slice(alloc, text) {
        Ok(table) => words_of(alloc, &table),
        Err(error) => match error.span() {
            Some(span) => Err(SettingsError::NoToml(line_at(text, span.start))),
            None => Err(SettingsError::Memory),
        },
    }
}
