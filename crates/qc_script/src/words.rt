// The words of a line, taken one by one.
ghost use Rattle.std.specs.Prelude.{◌≡◌, ℕ, List, [], ◌∷◌, ◌≤◌, length, MatchOption, false};
ghost use Rattle.qc_script.specs.Words.{words, is_gap, in_constant, word_length, starts_gap, Next};

use std::marker::Model;

/// The words of a line that are left. Contracts see their list. Between words stands one space or more; a space in a
/// constant, which stands between two quotes, parts nothing (docs/FORMATS.md, "Scripts").
#[derive(Drop)]
pub struct Words<'a> {
    left: &'a [u8],
}

impl<'a> Model for Words<'a> {
    ghost use Rattle.std.specs.Prelude.{List, ℕ};
    ghost use Rattle.qc_script.specs.Words.{words};

    ghost Value = { List (List ℕ) };

    ghost view = { λ w. words w.left.now };
}

impl<'a> Words<'a> {
    /// All words of a line.
    pub fn over(line: &'a [u8]) -> Words<'a>
        ensures { result ≡ words line.now }
    {
        Words { left: line }
    }

    /// These words, to look ahead.
    pub fn ahead(&self) -> Words<'a>
        ensures { result ≡ self.now }
    {
        Words { left: self.left }
    }

    /// The next word. None exactly where none is left.
    pub fn next(&mut self) -> Option<&'a [u8]>
        ensures { Next self.old self.new result }
    {
        let (word, left) = split_word(self.left)?;
        self.left = left;
        Some(word)
    }
}

fn is_gap(inside: bool, byte: u8) -> bool
    ensures { result ≡ is_gap inside byte }
{
    byte == b' ' && !inside
}

fn in_constant(inside: bool, byte: u8) -> bool
    ensures { result ≡ in_constant inside byte }
{
    if byte == b'"' { !inside } else { inside }
}

// The line behind the spaces with which it begins.
fn behind_spaces(line: &[u8]) -> &[u8]
    ensures words { words result.now ≡ words line.now }
    ensures starts { starts_gap result.now ≡ false }
{
    for (index, byte) in line.iter().enumerate() {
        if *byte != b' ' {
            return &line[index..];
        }
    }
    &[]
}

/// Where the first word ends that begins here.
fn word_end(line: &[u8]) -> usize
    ensures value { result ≡ word_length false line.now }
    ensures bound { result ≤ length line.now }
{
    let mut inside = false;
    for (index, byte) in line.iter().enumerate() {
        if is_gap(inside, *byte) {
            return index;
        }
        inside = in_constant(inside, *byte);
    }
    line.len()
}

/// The first word, and the line behind it. None exactly where there is none.
fn split_word(line: &[u8]) -> Option<(&[u8], &[u8])>
    ensures { MatchOption result (words line.now ≡ []) (λ p. words line.now ≡ p.0.now ∷ words p.1.now) }
{
    let line = behind_spaces(line);
    if line.is_empty() {
        return None;
    }
    let end = word_end(line);
    Some((&line[..end], &line[end..]))
}
