//! The product's own test of the words.
ghost use Rattle.std.specs.Prelude.{◌≡◌, ◌&&◌, is_some, map};
ghost use Rattle.std.specs.List.{list_all};
ghost use Rattle.std.specs.String.{string_bytes};
ghost use Rattle.command_line.specs.Forms.{command_of, form_of, is_plain as is_plain_of};
ghost use Rattle.command_line.specs.Forms.{is_printable as is_printable_of};
ghost use Rattle.command_line.specs.Forms.{count_in, is_of_policy, seed_in};

use script_text::decimal_number;
use script_text::form::is_text;

/// The most messages that `make` can be asked for.
const MOST_MADE: u64 = 2_000;

/// Whether the words are of a form.
#[tactic(auto, using(crate::proofs::Plain::listed_of_plain, crate::proofs::Plain::none_of_other))]
pub(crate) fn is_of_form(words: &[String]) -> bool
    ensures { result ≡ is_some (command_of words.now) }
{
    all_plain(words) && is_listed(words)
}

fn all_plain(words: &[String]) -> bool
    ensures { result ≡ list_all (λ word. is_plain_of (string_bytes word)) words.now }
{
    words.iter().all(|word| is_plain(word.as_bytes()))
}

/// Whether plain words are of a form.
fn is_listed(words: &[String]) -> bool
    ensures { result ≡ is_some (form_of (map string_bytes words.now)) }
{
    match words {
        [verb] => is_text(verb.as_bytes(), "replay"),
        [verb, _] => is_over_policy(verb.as_bytes()),
        [verb, seed, count] => is_text(verb.as_bytes(), "make")
            && is_making(seed.as_bytes(), count.as_bytes()),
        _ => false,
    }
}

/// Whether a verb is one that goes before a policy.
fn is_over_policy(verb: &[u8]) -> bool
    ensures { result ≡ is_of_policy verb.now }
{
    is_text(verb, "replay") || is_text(verb, "explain") || is_text(verb, "serve")
}

/// Whether the words are a seed and a number of messages.
fn is_making(seed: &[u8], count: &[u8]) -> bool
    ensures { result ≡ (is_some (seed_in seed.now) && is_some (count_in count.now)) }
{
    read_seed(seed).is_some() && read_count(count).is_some()
}

/// The seed that a word is.
pub(crate) fn read_seed(word: &[u8]) -> Option<u64>
    ensures { result ≡ seed_in word.now }
{
    decimal_number(word, u64::MAX)
}

/// The number of messages that a word is: there is at least one.
pub(crate) fn read_count(word: &[u8]) -> Option<u32>
    ensures { result ≡ count_in word.now }
{
    match decimal_number(word, MOST_MADE) {
        Some(count) if count > 0 => Some(count as u32),
        _ => None,
    }
}

/// Whether a word can be of a form: it isn't empty, doesn't begin with `-`, and is printable ASCII.
fn is_plain(word: &[u8]) -> bool
    ensures { result ≡ is_plain_of word.now }
{
    if word.is_empty() {
        return false;
    }
    if word[0] == b'-' {
        return false;
    }
    all_printable(word)
}

fn all_printable(word: &[u8]) -> bool
    ensures { result ≡ list_all is_printable_of word.now }
{
    word.iter().all(|byte| is_printable(*byte))
}

fn is_printable(byte: u8) -> bool
    ensures { result ≡ is_printable_of byte }
{
    byte >= b' ' && byte <= b'~'
}
