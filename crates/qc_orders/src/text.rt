// Texts that grow at their end. Where memory is wanting, a part may have been added.
ghost use Rattle.std.specs.Prelude.{◌≡◌, ◌++◌, List, ℕ, OnOk, codes, decimal, map, flat_map, [], ◌∷◌};
ghost use Rattle.qc_protocol.specs.Texts.{join_with, after_space, escaped_byte, quoted_text};

use itoa::Buffer;
use qc_base::NoMemory;

/// What has a text.
pub trait Show {
    ghost text: { Self → List ℕ };

    fn show(&self, out: &mut Vec<u8>) -> Result<(), NoMemory>
        ensures { OnOk result (out.new.items ≡ out.old.items ++ text self.now) };
}

pub fn put_bytes(out: &mut Vec<u8>, bytes: &[u8]) -> Result<(), NoMemory>
    ensures { OnOk result (out.new.items ≡ out.old.items ++ bytes.now) }
{
    out.extend_from_slice(bytes).map_err(|_| NoMemory)
}

pub fn put(out: &mut Vec<u8>, text: &str) -> Result<(), NoMemory>
    ensures { OnOk result (out.new.items ≡ out.old.items ++ text.now) }
{
    put_bytes(out, text.as_bytes())
}

pub fn put_number(out: &mut Vec<u8>, n: u64) -> Result<(), NoMemory>
    ensures { OnOk result (out.new.items ≡ out.old.items ++ decimal n) }
{
    let mut buffer = Buffer::new();
    put(out, buffer.format(n))
}

pub fn put_total(out: &mut Vec<u8>, n: u128) -> Result<(), NoMemory>
    ensures { OnOk result (out.new.items ≡ out.old.items ++ decimal n) }
{
    let mut buffer = Buffer::new();
    put(out, buffer.format(n))
}

/// A word, with its spaces, and a number.
pub fn put_numbered(out: &mut Vec<u8>, word: &str, n: u64) -> Result<(), NoMemory>
    ensures { OnOk result (out.new.items ≡ out.old.items ++ (word.now ++ decimal n)) }
{
    put(out, word)?;
    put_number(out, n)
}

/// A number between two words, with their spaces.
pub fn put_between(out: &mut Vec<u8>, before: &str, n: u64, after: &str) -> Result<(), NoMemory>
    ensures { OnOk result (out.new.items ≡ out.old.items ++ (before.now ++ decimal n ++ after.now)) }
{
    put_numbered(out, before, n)?;
    put(out, after)
}

/// Two words, with their spaces, each before a number.
pub fn put_pair(
    out: &mut Vec<u8>,
    first: &str,
    m: u64,
    second: &str,
    n: u64,
) -> Result<(), NoMemory>
    ensures { OnOk result (out.new.items ≡ out.old.items ++ (first.now ++ decimal m ++ second.now ++ decimal n)) }
{
    put_numbered(out, first, m)?;
    put_numbered(out, second, n)
}

/// A word, with its spaces, and another.
pub fn put_two(out: &mut Vec<u8>, first: &str, second: &str) -> Result<(), NoMemory>
    ensures { OnOk result (out.new.items ≡ out.old.items ++ (first.now ++ second.now)) }
{
    put(out, first)?;
    put(out, second)
}

/// Each item behind a comma and a space.
fn put_each<T: Show>(out: &mut Vec<u8>, items: &[T]) -> Result<(), NoMemory>
    ensures { OnOk result (out.new.items ≡ out.old.items ++ flat_map (λ x. codes ", " ++ T.text x) items.now) }
{
    for item in items {
        put(out, ", ")?;
        item.show(out)?;
    }
    Ok(())
}

/// The items with a comma and a space between each two.
pub fn put_joined<T: Show>(out: &mut Vec<u8>, items: &[T]) -> Result<(), NoMemory>
    ensures { OnOk result (out.new.items ≡ out.old.items ++ join_with (codes ", ") (map T.text items.now)) }
{
    let Some((first, rest)) = items.split_first() else {
        return Ok(());
    };
    first.show(out)?;
    put_each(out, rest)
}

/// The joined items behind a space, or nothing where there is none.
pub fn put_after_space<T: Show>(out: &mut Vec<u8>, items: &[T]) -> Result<(), NoMemory>
    ensures { OnOk result (out.new.items ≡ out.old.items ++ after_space (map T.text items.now)) }
{
    if items.is_empty() {
        return Ok(());
    }
    put(out, " ")?;
    put_joined(out, items)
}

fn put_byte(out: &mut Vec<u8>, byte: u8) -> Result<(), NoMemory>
    ensures { OnOk result (out.new.items ≡ out.old.items ++ byte ∷ []) }
{
    out.push(byte).map_err(|_| NoMemory)
}

fn put_escaped(out: &mut Vec<u8>, byte: u8) -> Result<(), NoMemory>
    ensures { OnOk result (out.new.items ≡ out.old.items ++ escaped_byte byte) }
{
    if byte == b'"' || byte == b'\\' {
        put_byte(out, b'\\')?;
    }
    put_byte(out, byte)
}

fn put_escapes(out: &mut Vec<u8>, text: &[u8]) -> Result<(), NoMemory>
    ensures { OnOk result (out.new.items ≡ out.old.items ++ flat_map escaped_byte text.now) }
{
    for byte in text {
        put_escaped(out, *byte)?;
    }
    Ok(())
}

/// A text between quotes.
pub fn put_quoted(out: &mut Vec<u8>, text: &[u8]) -> Result<(), NoMemory>
    ensures { OnOk result (out.new.items ≡ out.old.items ++ quoted_text text.now) }
{
    put_byte(out, b'"')?;
    put_escapes(out, text)?;
    put_byte(out, b'"')
}
