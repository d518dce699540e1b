// Names and texts, in place.
ghost use Rattle.std.specs.Prelude.{◌≡◌, ℕ, ◌≤◌, ◌-◌, ◌++◌, ◌==◌, not, replicate, List, take, length, ◌<◌, MatchOption, true, false};
ghost use Rattle.std.specs.List.{list_all};
ghost use Rattle.std.specs.Str.{is_utf8};
ghost use Rattle.qc_base.specs.Names.{is_name, is_app_name, is_text, is_letter, is_name_byte, is_text_byte};

use std::marker::Model;

/// A name: 1 to 32 ASCII letters, digits and `_`, the first a letter (docs/FORMATS.md, "Names,
/// texts, queues"). Contracts see its bytes. The bytes of the array behind them are 0.
#[derive(Clone, Copy, Debug, PartialEq, Eq)]
pub struct Name {
    bytes: [u8; 32],
    len: u8,
}

impl Model for Name {
    ghost use Rattle.std.specs.Prelude.{List, ℕ, take, drop, ◌≤◌, ◌≡◌, ◌-◌, ◌++◌, replicate, length, true};
    ghost use Rattle.qc_base.specs.Names.{is_name, Padded, padded_back};

    ghost Value = { List ℕ };

    ghost view = { λ n. take n.len n.bytes };

    ghost invariant = { λ n. Padded 32 n.len n.bytes × (is_name (take n.len n.bytes) ≡ true) };

    ghost inverse = { λ v. record { bytes = v ++ replicate (32 - length v) 0; len = length v } };

    ghost inverse_ok = { λ n h. padded_back 32 n.len n.bytes h.0 (λ b l. record { bytes = b; len = l }) };
}

impl Name {
    /// The bytes as a name. None exactly where they aren't one.
    pub fn read(bytes: &[u8]) -> Option<Name>
        ensures { MatchOption result (is_name bytes.now ≡ false) (λ name. (name ≡ bytes.now) × (is_name bytes.now ≡ true)) }
    {
        if !is_name(bytes) {
            return None;
        }
        Some(Name {
            bytes: padded(bytes),
            len: bytes.len() as u8,
        })
    }

    /// Its bytes.
    pub fn as_bytes(&self) -> &[u8]
        ensures value { result.now ≡ self.now }
        ensures is_name { is_name self.now ≡ true }
    {
        &self.bytes[..self.len as usize]
    }

    /// The same value again.
    pub fn copy(&self) -> Name
        ensures { result ≡ self.now }
    {
        *self
    }
}

/// A text: 1 to 64 bytes of UTF-8 without the characters below U+0020 and U+007F
/// (docs/FORMATS.md, "Names, texts, queues"). Contracts see its bytes. The bytes of the array
/// behind them are 0.
#[derive(Clone, Copy, Debug, PartialEq, Eq)]
pub struct Text {
    bytes: [u8; 64],
    len: u8,
}

impl Model for Text {
    ghost use Rattle.std.specs.Prelude.{List, ℕ, take, drop, ◌≤◌, ◌≡◌, ◌-◌, ◌++◌, replicate, length, true};
    ghost use Rattle.qc_base.specs.Names.{is_text, Padded, padded_back};

    ghost Value = { List ℕ };

    ghost view = { λ n. take n.len n.bytes };

    ghost invariant = { λ n. Padded 64 n.len n.bytes × (is_text (take n.len n.bytes) ≡ true) };

    ghost inverse = { λ v. record { bytes = v ++ replicate (64 - length v) 0; len = length v } };

    ghost inverse_ok = { λ n h. padded_back 64 n.len n.bytes h.0 (λ b l. record { bytes = b; len = l }) };
}

impl Text {
    /// The bytes as a text. None exactly where they aren't one.
    pub fn read(bytes: &[u8]) -> Option<Text>
        ensures { MatchOption result (is_text bytes.now ≡ false) (λ text. (text ≡ bytes.now) × (is_text bytes.now ≡ true)) }
    {
        if !is_text(bytes) {
            return None;
        }
        Some(Text {
            bytes: padded(bytes),
            len: bytes.len() as u8,
        })
    }

    /// Its bytes.
    pub fn as_bytes(&self) -> &[u8]
        ensures value { result.now ≡ self.now }
        ensures is_text { is_text self.now ≡ true }
    {
        &self.bytes[..self.len as usize]
    }

    /// The same value again.
    pub fn copy(&self) -> Text
        ensures { result ≡ self.now }
    {
        *self
    }
}

/// Whether the bytes are a name (docs/FORMATS.md, "Names, texts, queues").
pub fn is_name(bytes: &[u8]) -> bool
    ensures { result ≡ is_name bytes.now }
{
    match bytes {
        [first, rest @ ..] => is_letter(*first) && are_name_bytes(rest) && rest.len() < 32,
        [] => false,
    }
}

/// Whether the bytes are the name of an application: a name without `_` (docs/FORMATS.md, "Names,
/// texts, queues").
pub fn is_app_name(bytes: &[u8]) -> bool
    ensures { result ≡ is_app_name bytes.now }
{
    is_name(bytes) && has_no_underscore(bytes)
}

/// Whether the bytes are a text (docs/FORMATS.md, "Names, texts, queues").
pub fn is_text(bytes: &[u8]) -> bool
    ensures { result ≡ is_text bytes.now }
{
    !bytes.is_empty() && bytes.len() <= 64 && are_text_bytes(bytes) && is_utf8(bytes)
}

fn are_name_bytes(bytes: &[u8]) -> bool
    ensures { result ≡ list_all is_name_byte bytes.now }
{
    bytes.iter().all(|b| is_name_byte(*b))
}

fn has_no_underscore(bytes: &[u8]) -> bool
    ensures { result ≡ list_all (λ b. not (b == 95)) bytes.now }
{
    bytes.iter().all(|b| *b != b'_')
}

fn are_text_bytes(bytes: &[u8]) -> bool
    ensures { result ≡ list_all is_text_byte bytes.now }
{
    bytes.iter().all(|b| is_text_byte(*b))
}

fn is_letter(b: u8) -> bool
    ensures { result ≡ is_letter b }
{
    b.is_ascii_alphabetic()
}

fn is_name_byte(b: u8) -> bool
    ensures { result ≡ is_name_byte b }
{
    is_letter(b) || b.is_ascii_digit() || b == b'_'
}

fn is_text_byte(b: u8) -> bool
    ensures { result ≡ is_text_byte b }
{
    b >= b' ' && b != 127
}

fn is_utf8(bytes: &[u8]) -> bool
    ensures { result ≡ is_utf8 bytes.now }
{
    str::from_utf8(bytes).is_ok()
}

// The bytes, and zeros behind them.
fn padded<const SIZE: usize>(bytes: &[u8]) -> [u8; SIZE]
    requires { length bytes.now ≤ SIZE }
    ensures { result ≡ bytes.now ++ replicate (SIZE - length bytes.now) 0 }
{
    let mut padded = [0; SIZE];
    padded[..bytes.len()].copy_from_slice(bytes);
    padded
}
