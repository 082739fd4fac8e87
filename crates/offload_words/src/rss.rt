//! The options `--rss` and `--table`: the hash key and the table by which flows go to queues.

ghost use Rattle.std.specs.Prelude.{◌≡◌, ◌≤◌, ◌<◌, ◌⊎◌, IfSome, MatchOption, Some, None, length, option_map};
ghost use Rattle.clap.specs.Words.{found_of, rows_of};
ghost use Rattle.offload_words.specs.Rss.{Adds, choice_by, choice_in, entry_in, hash_key_in, hex_byte as hex_byte_of};
ghost use Rattle.offload_words.specs.Rss.{hex_digit as hex_digit_of, is_digit as is_digit_of, table_by, table_in};

use crate::texts::text_at;
use arrayvec::ArrayVec;
use clap::ArgMatches;
use frame_layout::{Choice, HashKey, even_table};

/// The number that a lower-case hexadecimal digit writes.
fn hex_digit(digit: u8) -> Option<u8>
    ensures digit { result ≡ hex_digit_of digit }
    ensures small { IfSome result (λ d. d < 16) }
{
    match digit {
        b'0'..=b'9' => Some(digit - b'0'),
        b'a'..=b'f' => Some(digit - b'a' + 10),
        _ => None,
    }
}

/// The byte that two of them write.
fn hex_byte(high: u8, low: u8) -> Option<u8>
    ensures byte { result ≡ hex_byte_of high low }
{
    let high = hex_digit(high)?;
    let low = hex_digit(low)?;
    Some(16 * high + low)
}

/// The hash key that 80 lower-case hexadecimal digits write.
fn hash_key_of(text: &str) -> Option<[u8; 40]>
    ensures key { result ≡ hash_key_in text.now }
{
    let digits = text.as_bytes();
    if digits.len() != 80 {
        return None;
    }
    let mut key = [0u8; 40];
    for i in 0..40usize {
        key[i] = hex_byte(digits[2 * i], digits[2 * i + 1])?;
    }
    Some(key)
}

fn is_digit(c: u8) -> bool
    ensures digit { result ≡ is_digit_of c }
{
    c >= b'0' && c <= b'9'
}

/// The queue whose number one to three digits write, of this many.
fn entry_of(text: &str, queues: u32) -> Option<u8>
    requires few { queues ≤ 64 }
    ensures entry { result ≡ entry_in queues text.now }
{
    let digits = text.as_bytes();
    if digits.is_empty() || digits.len() > 3 {
        return None;
    }
    let mut value = 0u32;
    for digit in digits {
        if !is_digit(*digit) {
            return None;
        }
        value = value * 10 + u32::from(*digit - b'0');
    }
    if value < queues {
        Some(value as u8)
    } else {
        None
    }
}

/// One entry more. None where its text is no queue's number, or the table is full.
fn push_entry(table: &mut ArrayVec<u8, 128>, text: &str, queues: u32) -> Option<()>
    requires few { queues ≤ 64 }
    ensures entry { MatchOption result ((entry_in queues text.now ≡ None) ⊎ (128 ≤ length table.old.items))
        (λ _. Adds queues text.now table.old.items table.new.items) }
{
    let entry = entry_of(text, queues)?;
    table.try_push(entry).ok()
}

/// The table that 1 to 128 numbers of queues write, with commas between.
fn table_of(text: &str, queues: u32) -> Option<ArrayVec<u8, 128>>
    requires few { queues ≤ 64 }
    ensures table { option_map (λ t. t.items) result ≡ table_in queues text.now }
{
    let mut table = ArrayVec::new();
    let mut rest = text;
    'entries: while let Some((entry, behind)) = rest.split_once(',') {
        push_entry(&mut table, entry, queues)?;
        rest = behind;
    }
    push_entry(&mut table, rest, queues)?;
    Some(table)
}

/// The table of the text of `--table`, and the queues in turn where there is none.
fn table_by_text(text: Option<&str>, queues: u32) -> Option<ArrayVec<u8, 128>>
    requires some { 1 ≤ queues }
    requires few { queues ≤ 64 }
    ensures table { option_map (λ t. t.items) result ≡ table_by queues (option_map (λ t. t.now) text.entry) }
{
    match text {
        Some(text) => table_of(text, queues),
        None => Some(even_table(queues)),
    }
}

/// The choice by a hash key's text and a table's.
#[tactic(auto, unfolding(crate::specs::Rss::choice_by))]
fn toeplitz(key: &str, table: Option<&str>, queues: u32) -> Option<Choice>
    requires some { 1 ≤ queues }
    requires few { queues ≤ 64 }
    ensures choice { result ≡ choice_by queues (Some key.now) (option_map (λ t. t.now) table.entry) }
{
    let key = HashKey::of(&hash_key_of(key)?);
    let table = table_by_text(table, queues)?;
    Some(Choice::Toeplitz { key, table })
}

/// The choice that the texts at both options say for this many queues. None where one isn't as it must be, or a table
/// stands without a key.
#[tactic(auto, unfolding(crate::specs::Rss::choice_by))]
pub(crate) fn choice_at(matches: &ArgMatches<'_>, queues: u32) -> Option<Choice>
    requires some { 1 ≤ queues }
    requires few { queues ≤ 64 }
    ensures choice { result ≡ choice_in queues (rows_of (found_of matches.now)) }
{
    match (text_at(matches, "rss"), text_at(matches, "table")) {
        (Some(key), table) => toeplitz(key, table, queues),
        (None, None) => Some(Choice::Fold),
        (None, Some(_)) => None,
    }
}
