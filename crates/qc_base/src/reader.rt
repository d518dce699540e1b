// Values read from the front of a run of bytes.
ghost use Rattle.std.specs.Prelude.{◌≡◌, ◌++◌, ◌∷◌, [], ℕ, List, length, ◌<◌, ◌≤◌, MatchOption, true, false};
ghost use Rattle.qc_base.specs.Names.{is_name, is_text};
ghost use Rattle.qc_base.specs.Spelling.{Reads, short_bytes, two_bytes, four_bytes, eight_bytes, fits_two, fits_four, is_id, is_amount, is_moment};

use crate::name::{Name, Text};
use crate::number::{Amount, Moment};
use std::marker::Model;

/// Bytes from whose front values are read (docs/FORMATS.md, "Recording"). Contracts see the bytes
/// that are left. After a None what is left is open, so nothing more is read from it.
#[derive(Drop)]
pub struct Reader<'a> {
    left: &'a [u8],
}

impl<'a> Model for Reader<'a> {
    ghost Value = { List ℕ };

    ghost view = { λ r. r.left.now };
}

impl<'a> Reader<'a> {
    /// A reader of all these bytes.
    pub fn over(bytes: &'a [u8]) -> Reader<'a>
        ensures { result ≡ bytes.now }
    {
        Reader { left: bytes }
    }

    /// How many bytes are left.
    pub fn len(&self) -> usize
        ensures { result ≡ length self.now }
    {
        self.left.len()
    }

    /// The next byte. None exactly where none is left.
    pub fn read_byte(&mut self) -> Option<u8>
        ensures { MatchOption result (self.old ≡ []) (λ b. self.old ≡ b ∷ self.new) }
    {
        let (first, left) = self.left.split_first()?;
        self.left = left;
        Some(*first)
    }

    /// The next bytes, so many. None exactly where fewer are left.
    pub fn read_bytes(&mut self, count: usize) -> Option<&'a [u8]>
        ensures { MatchOption result (length self.old < count) (λ bytes. (self.old ≡ bytes.now ++ self.new) × (length bytes.now ≡ count)) }
    {
        let (bytes, left) = self.left.split_at_checked(count)?;
        self.left = left;
        Some(bytes)
    }

    /// The number that the next two bytes spell.
    pub fn read_u16(&mut self) -> Option<u16>
        ensures { Reads fits_two two_bytes self.old self.new result }
    {
        let (bytes, left) = self.left.split_first_chunk::<2>()?;
        self.left = left;
        Some(u16_of(*bytes))
    }

    /// The number that the next four bytes spell.
    pub fn read_u32(&mut self) -> Option<u32>
        ensures { Reads fits_four four_bytes self.old self.new result }
    {
        let (bytes, left) = self.left.split_first_chunk::<4>()?;
        self.left = left;
        Some(u32_of(*bytes))
    }

    /// The number that the next eight bytes spell.
    pub fn read_u64(&mut self) -> Option<u64>
        ensures { Reads is_id eight_bytes self.old self.new result }
    {
        let (bytes, left) = self.left.split_first_chunk::<8>()?;
        self.left = left;
        Some(u64_of(*bytes))
    }

    /// The amount that the next eight bytes spell.
    pub fn read_amount(&mut self) -> Option<Amount>
        ensures { Reads is_amount eight_bytes self.old self.new result }
    {
        Amount::new(self.read_u64()?)
    }

    /// The moment that the next eight bytes spell.
    pub fn read_moment(&mut self) -> Option<Moment>
        ensures { Reads is_moment eight_bytes self.old self.new result }
    {
        Moment::new(self.read_u64()?)
    }

    /// The name that the next bytes spell.
    pub fn read_name(&mut self) -> Option<Name>
        ensures { Reads is_name short_bytes self.old self.new result }
    {
        let len = self.read_byte()?;
        Name::read(self.read_bytes(len as usize)?)
    }

    /// The text that the next bytes spell.
    pub fn read_text(&mut self) -> Option<Text>
        ensures { Reads is_text short_bytes self.old self.new result }
    {
        let len = self.read_byte()?;
        Text::read(self.read_bytes(len as usize)?)
    }
}

fn u16_of(bytes: [u8; 2]) -> u16
    ensures { two_bytes result ≡ bytes }
{
    u16::from_be_bytes(bytes)
}

fn u32_of(bytes: [u8; 4]) -> u32
    ensures { four_bytes result ≡ bytes }
{
    u32::from_be_bytes(bytes)
}

fn u64_of(bytes: [u8; 8]) -> u64
    ensures { eight_bytes result ≡ bytes }
{
    u64::from_be_bytes(bytes)
}
