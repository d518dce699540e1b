// Values that are entries of a log.
ghost use Rattle.std.specs.Prelude.{◌≡◌, ◌+◌, ◌≤◌, ◌++◌, List, ℕ, Bool, true, length, vec_len, vec_capacity};

/// A value that is written as one entry of a log (docs/FORMATS.md, "Frame").
pub trait Spelled {
    /// Whether the value is within the limits of its format.
    ghost within: { Self → Bool };

    /// Its bytes.
    ghost spelled: { Self → List ℕ };

    /// Appends the bytes of a value within its limits. There is room for them, so this takes no memory.
    fn put(&self, out: &mut Vec<u8>)
        requires limits { within self.now ≡ true }
        requires room { vec_len out.old + length (spelled self.now) ≤ vec_capacity out.old }
        ensures bytes { out.new.items ≡ out.old.items ++ spelled self.now }
        ensures room { vec_capacity out.old ≤ vec_capacity out.new };
}
