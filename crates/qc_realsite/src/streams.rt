// Standard input and output, which tell nothing of their bytes.
ghost use Rattle.std.specs.Prelude.{◌≡◌, None, OnOk, IsErr};
ghost use Rattle.std.specs.Io.KnownBytes.{Appends};
ghost use Rattle.qc_site.specs.Causes.{HasCause};

use crate::faults::Faults;
use qc_site::{Failed, Sink, Source};
use std::io::{ErrorKind, Read, Write};

/// Standard input as a source, or any other reader. What is left isn't told.
#[derive(Drop)]
pub struct RealSource<R> {
    reader: R,
    faults: Faults,
}

impl<R> RealSource<R> {
    /// A source over this reader, which hasn't failed yet.
    pub fn over(reader: R) -> RealSource<R>
        ensures reader { result.reader ≡ reader }
        ensures faults { result.faults.count ≡ 0 }
    {
        RealSource {
            reader,
            faults: Faults::none(),
        }
    }
}

impl<R: Read> Source for RealSource<R> {
    ghost left = { λ s. None };

    ghost faults = { λ s. s.faults.count };

    ghost read_keeps = { λ s t. Unit {0} };

    // A read that a signal interrupts is made again.
    fn read(&mut self, into: &mut [u8]) -> Result<usize, Failed> {
        for _ in 0..u64::MAX {
            match self.reader.read(into) {
                Ok(count) => return Ok(count),
                Err(error) if error.kind() == ErrorKind::Interrupted => {}
                Err(_) => return Err(self.faults.one_more()),
            }
        }
        Err(self.faults.one_more())
    }
}

/// Standard output as a sink, or any other writer. What it holds isn't told.
#[derive(Drop)]
pub struct RealSink<W> {
    writer: W,
    faults: Faults,
}

impl<W> RealSink<W> {
    /// A sink over this writer, which hasn't failed yet.
    pub fn over(writer: W) -> RealSink<W>
        ensures writer { result.writer ≡ writer }
        ensures faults { result.faults.count ≡ 0 }
    {
        RealSink {
            writer,
            faults: Faults::none(),
        }
    }
}

impl<W: Write> Sink for RealSink<W> {
    ghost contents = { λ s. None };

    ghost faults = { λ s. s.faults.count };

    ghost write_keeps = { λ s t. Unit {0} };

    // All goes out at once: nothing is kept back in a buffer.
    fn write_all(&mut self, bytes: &[u8]) -> Result<(), Failed>
        ensures all { OnOk result (Appends (W.contents self.old.writer) (W.contents self.new.writer) bytes.now) }
        ensures cause { HasCause self.old.faults.count self.new.faults.count (IsErr result) }
    {
        let Ok(()) = self.writer.write_all(bytes) else {
            return Err(self.faults.one_more());
        };
        match self.writer.flush() {
            Ok(()) => Ok(()),
            Err(_) => Err(self.faults.one_more()),
        }
    }
}
