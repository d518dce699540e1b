// Values written behind a run of bytes, where there is room for them.
ghost use Rattle.std.specs.Prelude.{◌≡◌, ◌++◌, ◌∷◌, ◌+◌, ◌≤◌, length, vec_len, vec_capacity};
ghost use Rattle.qc_base.specs.Spelling.{short_bytes, two_bytes, four_bytes, eight_bytes};

use crate::name::{Name, Text};

/// Appends the name's spelling (docs/FORMATS.md, "Names, texts, queues"). There is room for it, so
/// this takes no memory.
pub fn put_name(out: &mut Vec<u8>, name: &Name)
    requires { vec_len out.old + length (short_bytes name.now) ≤ vec_capacity out.old }
    ensures bytes { out.new.items ≡ out.old.items ++ short_bytes name.now }
    ensures len { vec_len out.new ≡ vec_len out.old + length (short_bytes name.now) }
    ensures room { vec_capacity out.old ≤ vec_capacity out.new }
{
    let word = name.as_bytes();
    out.push_reserved(word.len() as u8);
    put_bytes(out, word);
}

/// Appends the text's spelling (docs/FORMATS.md, "Names, texts, queues"). There is room for it, so
/// this takes no memory.
pub fn put_text(out: &mut Vec<u8>, text: &Text)
    requires { vec_len out.old + length (short_bytes text.now) ≤ vec_capacity out.old }
    ensures bytes { out.new.items ≡ out.old.items ++ short_bytes text.now }
    ensures len { vec_len out.new ≡ vec_len out.old + length (short_bytes text.now) }
    ensures room { vec_capacity out.old ≤ vec_capacity out.new }
{
    let word = text.as_bytes();
    out.push_reserved(word.len() as u8);
    put_bytes(out, word);
}

/// Appends the number in two bytes. There is room for them, so this takes no memory.
pub fn put_u16(out: &mut Vec<u8>, n: u16)
    requires { vec_len out.old + 2 ≤ vec_capacity out.old }
    ensures bytes { out.new.items ≡ out.old.items ++ two_bytes n }
    ensures len { vec_len out.new ≡ vec_len out.old + 2 }
    ensures room { vec_capacity out.old ≤ vec_capacity out.new }
{
    put_bytes(out, &n.to_be_bytes());
}

/// Appends the number in four bytes. There is room for them, so this takes no memory.
pub fn put_u32(out: &mut Vec<u8>, n: u32)
    requires { vec_len out.old + 4 ≤ vec_capacity out.old }
    ensures bytes { out.new.items ≡ out.old.items ++ four_bytes n }
    ensures len { vec_len out.new ≡ vec_len out.old + 4 }
    ensures room { vec_capacity out.old ≤ vec_capacity out.new }
{
    put_bytes(out, &n.to_be_bytes());
}

/// Appends the number in eight bytes. There is room for them, so this takes no memory.
pub fn put_u64(out: &mut Vec<u8>, n: u64)
    requires { vec_len out.old + 8 ≤ vec_capacity out.old }
    ensures bytes { out.new.items ≡ out.old.items ++ eight_bytes n }
    ensures len { vec_len out.new ≡ vec_len out.old + 8 }
    ensures room { vec_capacity out.old ≤ vec_capacity out.new }
{
    put_bytes(out, &n.to_be_bytes());
}

/// Appends the bytes as they are. There is room for them, so this takes no memory.
pub fn put_bytes(out: &mut Vec<u8>, bytes: &[u8])
    requires { vec_len out.old + length bytes.now ≤ vec_capacity out.old }
    ensures bytes { out.new.items ≡ out.old.items ++ bytes.now }
    ensures len { vec_len out.new ≡ vec_len out.old + length bytes.now }
    ensures room { vec_capacity out.old ≤ vec_capacity out.new }
{
    // It fails only where there is no room.
    let _ = out.extend_from_slice(bytes);
}
