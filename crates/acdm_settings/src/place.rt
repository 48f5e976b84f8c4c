//! Where a command line names a file of settings.

ghost use Rattle.std.specs.Prelude.{◌≡◌, ◌+◌, ◌≤◌, ◌++◌, IfOk, IfSome, false, length, map, option_map, string_bytes};
ghost use Rattle.acdm_settings.specs.Settings.{is_serving, place_from, place_in, with_settings};

use std::alloc::{AllocError, Global};

/// Where a command line names a file of settings: behind so many words, by the next two, `--config FILE`.
#[derive(Clone, Copy, Debug, PartialEq, Eq)]
pub struct ConfigPlace<'a> {
    pub before: usize,
    pub path: &'a str,
}

/// Where the words of a command line, of which the first is the program's name, name a file of settings: by
/// `--config FILE`, as the words of `serve` or of `follow` and before a word `--`. `None` where they name none so.
pub fn place_in<'a>(words: &[&'a str]) -> Option<ConfigPlace<'a>>
    ensures place { option_map (λ p. (p.before, p.path.now)) result ≡ place_in (map (λ w. w.now) words.now) }
    ensures inside { IfSome result (λ p. p.before + 2 ≤ length words.now) }
{
    let Some((_, rest)) = words.split_first() else {
        return None;
    };
    let Some((command, rest)) = rest.split_first() else {
        return None;
    };
    if is_serving(command) {
        return place_from(2, rest);
    }
    None
}

// Whether a word is the name of a subcommand that serves.
fn is_serving(word: &str) -> bool
    ensures { result ≡ is_serving word.now }
{
    if word == "serve" {
        return true;
    }
    word == "follow"
}

// The same behind so many words.
fn place_from<'a>(count: usize, words: &[&'a str]) -> Option<ConfigPlace<'a>>
    requires { count + length words.now ≤ 18446744073709551615 }
    ensures place { option_map (λ p. (p.before, p.path.now)) result
        ≡ place_from count false (map (λ w. w.now) words.now) }
    ensures inside { IfSome result (λ p. p.before + 2 ≤ count + length words.now) }
{
    let mut before = count;
    let mut is_named = false;
    for word in words {
        if is_named {
            return Some(ConfigPlace { before, path: word });
        }
        if *word == "--" {
            return None;
        }
        is_named = *word == "--config";
        if !is_named {
            before += 1;
        }
    }
    None
}

// Adds words.
fn with_words(
    alloc: Global,
    mut texts: Vec<String>,
    words: &[&str],
) -> Result<Vec<String>, AllocError>
    ensures { IfOk result (λ v. map (λ s. string_bytes s) v.items
        ≡ map (λ s. string_bytes s) texts.items ++ map (λ w. w.now) words.now) }
{
    for word in words {
        texts.push(String::from_str(alloc, word)?)?;
    }
    Ok(texts)
}

// Adds texts.
fn with_texts(mut texts: Vec<String>, mut more: Vec<String>) -> Result<Vec<String>, AllocError>
    ensures { IfOk result (λ v. map (λ s. string_bytes s) v.items
        ≡ map (λ s. string_bytes s) texts.items ++ map (λ s. string_bytes s) more.items) }
{
    texts.append(&mut more)?;
    Ok(texts)
}

/// The words of a command line with those of a file of settings, in the place of the two behind so many that name it.
/// `Err` only where memory was refused.
pub fn with_settings(
    alloc: Global,
    words: &[&str],
    before: usize,
    settings: Vec<String>,
) -> Result<Vec<String>, AllocError>
    requires { before + 2 ≤ length words.now }
    ensures { IfOk result (λ v. map (λ s. string_bytes s) v.items
        ≡ with_settings before (map (λ w. w.now) words.now) (map (λ s. string_bytes s) settings.items)) }
{
    let front = with_words(alloc, Vec::new(alloc), &words[..before])?;
    let more = with_texts(front, settings)?;
    let whole = with_words(alloc, more, &words[before + 2..])?;
    Ok(whole)
}
