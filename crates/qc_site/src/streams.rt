// A source of bytes and a sink for them. What one has left, or holds, is known only where it tells.
ghost use Rattle.std.specs.Prelude.{◌≡◌, ◌≤◌, ◌<◌, ◌↔◌, ℕ, List, [], Option, Some, None, length, take, IfOk, OnOk, OnErr, IfSome, IsErr};
ghost use Rattle.qc_site.specs.Causes.{HasCause};
ghost use Rattle.qc_site.specs.Streams.{Takes, Appends, AppendsPart};

use crate::Failed;

pub trait Source {
    /// The bytes that are left, where it tells.
    ghost left: { Self → Option (List ℕ) };

    /// How often it has failed.
    ghost faults: { Self → ℕ };

    /// What a read leaves as it was, of an object that is more than a source.
    ghost read_keeps: { Self → Self → Type 0 };

    /// Takes what it gives from the front of the bytes that are left. 0 is the end.
    fn read(&mut self, into: &mut [u8]) -> Result<usize, Failed>
        requires { 0 < length into.old }
        ensures count { IfOk result (λ n. n ≤ length into.old) }
        ensures taken { IfOk result (λ n. IfSome (left self.old) (Takes n into.new (left self.new))) }
        ensures end { IfOk result (λ n. IfSome (left self.old) (λ bytes. (n ≡ 0) ↔ (bytes ≡ []))) }
        ensures failed { OnErr result (left self.new ≡ left self.old) }
        ensures keeps { read_keeps self.old self.new }
        ensures cause { HasCause (faults self.old) (faults self.new) (IsErr result) };
}

pub trait Sink {
    /// The bytes that were written, where it tells.
    ghost contents: { Self → Option (List ℕ) };

    /// How often it has failed.
    ghost faults: { Self → ℕ };

    /// What a write leaves as it was, of an object that is more than a sink.
    ghost write_keeps: { Self → Self → Type 0 };

    /// Appends all, or after a failure a front.
    fn write_all(&mut self, bytes: &[u8]) -> Result<(), Failed>
        ensures written { OnOk result (IfSome (contents self.old) (Appends bytes.now (contents self.new))) }
        ensures failed { OnErr result (IfSome (contents self.old) (AppendsPart bytes.now (contents self.new))) }
        ensures keeps { write_keeps self.old self.new }
        ensures cause { HasCause (faults self.old) (faults self.new) (IsErr result) };
}

/// An object that is both: neither call changes what the other speaks of, or lowers its count.
pub trait Link: Source + Sink {
    ghost read_keeps_sink: { (s t : Self) → Self.Source.read_keeps s t → (Self.Sink.contents t ≡ Self.Sink.contents s) × (Self.Sink.faults s ≤ Self.Sink.faults t) };

    ghost write_keeps_source: { (s t : Self) → Self.Sink.write_keeps s t → (Self.Source.left t ≡ Self.Source.left s) × (Self.Source.faults s ≤ Self.Source.faults t) };
}
