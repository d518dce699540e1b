// Single words of steps.
ghost use Rattle.std.specs.Prelude.{◌≡◌, ℕ, ◌+◌, ◌-◌, ◌*◌, ◌<◌, ◌≤◌, List, length, Some, None, option_map, slice_index};
ghost use Rattle.std.specs.Prelude.{true, MatchOption};
ghost use Rattle.std.specs.List.{list_all, list_any, before_first, after_first};
ghost use Rattle.std.specs.Str.{bytes_eq};
ghost use Rattle.qc_base.specs.Names.{is_digit};
ghost use Rattle.qc_script.specs.Terms.{value_from, is_numeral, number_of, is_kind, place_of, known, behind};
ghost use Rattle.qc_script.specs.Terms.{without_last, is_plain, constant_of, key_of, is_open, cell_of, term_of};
ghost use Rattle.qc_script.specs.Terms.{compare_of, sign_of, change_of};

use crate::names::{Param, ParamKind};
use crate::step::{Cell, Compare, Key, Term};
use qc_base::{Amount, Name, Text};

fn is_digit(byte: u8) -> bool
    ensures { result ≡ is_digit byte }
{
    byte.is_ascii_digit()
}

fn are_digits(bytes: &[u8]) -> bool
    ensures { result ≡ list_all is_digit bytes.now }
{
    bytes.iter().all(|b| is_digit(*b))
}

fn is_numeral(word: &[u8]) -> bool
    ensures { result ≡ is_numeral word.now }
{
    match word {
        [] => false,
        [b'0', _, ..] => false,
        _ => are_digits(word),
    }
}

// The value of digits, where it is an amount.
#[tactic(auto, using(crate::proofs::Numbers::value_grows))]
fn value_of(digits: &[u8]) -> Option<Amount>
    requires { list_all is_digit digits.now ≡ true }
    ensures { MatchOption result (1000000000000000 < value_from 0 digits.now) (λ n. n ≡ value_from 0 digits.now) }
{
    let mut value: u64 = 0;
    for digit in digits {
        value = value * 10 + u64::from(*digit - b'0');
        if value > 1_000_000_000_000_000 {
            return None;
        }
    }
    Amount::new(value)
}

fn number_of(word: &[u8]) -> Option<Amount>
    ensures { result ≡ number_of word.now }
{
    if !is_numeral(word) {
        return None;
    }
    value_of(word)
}

fn is_kind(kind: ParamKind, other: ParamKind) -> bool
    ensures { result ≡ is_kind kind other }
{
    match (kind, other) {
        (ParamKind::Text, ParamKind::Text) => true,
        (ParamKind::Whole, ParamKind::Whole) => true,
        (ParamKind::Text, ParamKind::Whole) => false,
        (ParamKind::Whole, ParamKind::Text) => false,
    }
}

fn place_of(kind: ParamKind, name: &[u8], params: &[Param]) -> Option<usize>
    ensures { result ≡ place_of kind name.now params.now }
{
    for (index, param) in params.iter().enumerate() {
        if param.name.as_bytes() == name {
            return if is_kind(kind, param.kind) {
                Some(index)
            } else {
                None
            };
        }
    }
    None
}

/// The name that a word is, where it is one of these.
pub fn known(names: &[Name], word: &[u8]) -> Option<Name>
    ensures { result ≡ known names.now word.now }
{
    for name in names {
        if name.as_bytes() == word {
            return Some(*name);
        }
    }
    None
}

fn behind(first: u8, bytes: &[u8]) -> Option<&[u8]>
    ensures { option_map (λ b. b.now) result ≡ behind first bytes.now }
{
    let (byte, rest) = bytes.split_first()?;
    if *byte == first { Some(rest) } else { None }
}

fn without_last(last: u8, bytes: &[u8]) -> Option<&[u8]>
    ensures { option_map (λ b. b.now) result ≡ without_last last bytes.now }
{
    if bytes.is_empty() || bytes[bytes.len() - 1] != last {
        return None;
    }
    Some(&bytes[..bytes.len() - 1])
}

fn is_plain(byte: u8) -> bool
    ensures { result ≡ is_plain byte }
{
    byte != b'"' && byte != b'\\'
}

fn are_plain(bytes: &[u8]) -> bool
    ensures { result ≡ list_all is_plain bytes.now }
{
    bytes.iter().all(|b| is_plain(*b))
}

fn constant_of(key: &[u8]) -> Option<Text>
    ensures { result ≡ constant_of key.now }
{
    let text = without_last(b'"', behind(b'"', key)?)?;
    if are_plain(text) {
        Text::read(text)
    } else {
        None
    }
}

fn key_of(params: &[Param], key: &[u8]) -> Option<Key>
    ensures { result ≡ key_of params.now key.now }
{
    if let Some(text) = constant_of(key) {
        return Some(Key::Constant(text));
    }
    let place = place_of(ParamKind::Text, key, params)?;
    Some(Key::Param(place))
}

// The bytes before the first `[`, and those behind it.
fn parted(word: &[u8]) -> (&[u8], &[u8])
    ensures before { result.0.now ≡ before_first is_open word.now }
    ensures after { result.1.now ≡ after_first is_open word.now }
{
    for (index, byte) in word.iter().enumerate() {
        if *byte == b'[' {
            return (&word[..index], &word[index + 1..]);
        }
    }
    (word, &[])
}

/// The row that a word names, of one of these tables or resources.
pub fn cell_of(names: &[Name], params: &[Param], word: &[u8]) -> Option<Cell>
    ensures { result ≡ cell_of names.now params.now word.now }
{
    let (name, key) = parted(word);
    let name = known(names, name)?;
    let key = key_of(params, without_last(b']', key)?)?;
    Some(Cell { name, key })
}

/// The term that a word is.
pub fn term_of(tables: &[Name], params: &[Param], word: &[u8]) -> Option<Term>
    ensures { result ≡ term_of tables.now params.now word.now }
{
    if let Some(number) = number_of(word) {
        return Some(Term::Number(number));
    }
    if let Some(place) = place_of(ParamKind::Whole, word, params) {
        return Some(Term::Param(place));
    }
    let cell = cell_of(tables, params, word)?;
    Some(Term::Row(cell.name, cell.key))
}

/// The comparison that a word is.
pub fn compare_of(word: &[u8]) -> Option<Compare>
    ensures { result ≡ compare_of word.now }
{
    match word {
        b"<" => Some(Compare::Less),
        b"<=" => Some(Compare::AtMost),
        b"=" => Some(Compare::Equal),
        b"!=" => Some(Compare::NotEqual),
        b">=" => Some(Compare::AtLeast),
        b">" => Some(Compare::More),
        _ => None,
    }
}

/// Whether the sign that a word is takes away.
pub fn sign_of(word: &[u8]) -> Option<bool>
    ensures { result ≡ sign_of word.now }
{
    match word {
        b"+" => Some(false),
        b"-" => Some(true),
        _ => None,
    }
}

/// Whether the outside change that a word is takes away.
pub fn change_of(word: &[u8]) -> Option<bool>
    ensures { result ≡ change_of word.now }
{
    match word {
        b"+=" => Some(false),
        b"-=" => Some(true),
        _ => None,
    }
}
