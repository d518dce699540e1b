// Facts to bytes.
ghost use Rattle.std.specs.Prelude.{◌≡◌, ◌≤◌, ◌+◌, ◌++◌, true, length, flat_map, IfOk, vec_len, vec_capacity};
ghost use Rattle.qc_base.specs.Spelling.{eight_bytes, kind_byte, spelled_fact, is_fact};

use crate::fact_size::size_of_fact;
use qc_base::{
    Fact, Kind, NoMemory, put_bytes, put_name, put_recording, put_u16, put_u32, put_u64,
};
use qc_entries::Spelled;
use std::alloc::Global;

/// The spelling of a fact (docs/FORMATS.md, "Facts"). The fact is within the limits of that section.
pub fn write_fact(alloc: Global, fact: &Fact) -> Result<Vec<u8>, NoMemory>
    requires { is_fact fact.now ≡ true }
    ensures { IfOk result (λ v. v.items ≡ spelled_fact fact.now) }
{
    let mut bytes = Vec::with_capacity(alloc, size_of_fact(fact)).map_err(|_| NoMemory)?;
    put_fact(&mut bytes, fact);
    Ok(bytes)
}

/// A fact as it is staged.
#[derive(Clone, Copy)]
pub(crate) struct Staged<'a>(pub(crate) &'a Fact);

impl Spelled for Staged<'_> {
    ghost use Rattle.qc_base.specs.Spelling.{spelled_fact, is_fact};

    ghost within = { λ a. is_fact a.0.now };

    ghost spelled = { λ a. spelled_fact a.0.now };

    fn put(&self, out: &mut Vec<u8>) {
        put_fact(out, self.0)
    }
}

// Appends the spelling of a fact within the limits. There is room for it, so this takes no memory.
#[tactic(auto, using(crate::proofs::Lengths::fact_lengths))]
fn put_fact(out: &mut Vec<u8>, fact: &Fact)
    requires limits { is_fact fact.now ≡ true }
    requires room { vec_len out.old + length (spelled_fact fact.now) ≤ vec_capacity out.old }
    ensures bytes { out.new.items ≡ out.old.items ++ spelled_fact fact.now }
    ensures room { vec_capacity out.old ≤ vec_capacity out.new }
{
    match fact {
        Fact::Catalogue(text) => {
            let text = text.as_slice();
            out.push_reserved(1);
            put_u32(out, text.len() as u32);
            put_bytes(out, text);
        }
        Fact::Sent(id, at, recording) => {
            out.push_reserved(2);
            put_u64(out, *id);
            put_u64(out, at.get());
            put_u16(out, recording.size() as u16);
            put_recording(out, recording);
        }
        Fact::Played(id, attempt, kind, at) => {
            out.push_reserved(3);
            put_u64(out, *id);
            put_u64(out, *attempt);
            out.push_reserved(kind_code(*kind));
            put_u64(out, at.get());
        }
        Fact::Failed(id, attempt, at) => {
            out.push_reserved(4);
            put_u64(out, *id);
            put_u64(out, *attempt);
            put_u64(out, at.get());
        }
        Fact::Moved(app, queue, at, ids) => {
            out.push_reserved(5);
            put_name(out, app);
            out.push_reserved(*queue);
            put_u64(out, at.get());
            put_u16(out, ids.as_slice().len() as u16);
            put_ids(out, ids.as_slice());
        }
        Fact::Switched(app, on, at) => {
            out.push_reserved(6);
            put_name(out, app);
            out.push_reserved(u8::from(*on));
            put_u64(out, at.get());
        }
    }
}

fn put_ids(out: &mut Vec<u8>, ids: &[u64])
    requires { vec_len out.old + length (flat_map eight_bytes ids.now) ≤ vec_capacity out.old }
    ensures bytes { out.new.items ≡ out.old.items ++ flat_map eight_bytes ids.now }
    ensures room { vec_capacity out.old ≤ vec_capacity out.new }
{
    for id in ids {
        put_u64(out, *id);
    }
}

fn kind_code(kind: Kind) -> u8
    ensures { result ≡ kind_byte kind }
{
    match kind {
        Kind::Normal => 1,
        Kind::Final => 2,
    }
}
