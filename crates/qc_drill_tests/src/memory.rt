// A drill over a site in memory, whose contract says what the sink then holds.
ghost use Rattle.std.specs.Prelude.{◌≡◌, IfOk, true};
ghost use Rattle.qc_drill.specs.Words.{is_drill};
ghost use Rattle.qc_drill_tests.specs.Memory.{DrillsSample};

use crate::new_site;
use qc_base::NoMemory;
use qc_drill::run;
use qc_memsite::{MemSink, MemSource};
use qc_protocol::Status;
use qc_site::Sink;
use std::alloc::Global;

// The one word of a drill.
fn drill_words(alloc: Global) -> Result<Vec<String>, NoMemory>
    ensures { IfOk result (λ words. is_drill words.items ≡ true) }
{
    let mut words = Vec::new(alloc);
    let word = String::from_str(alloc, "drill").map_err(|_| NoMemory)?;
    words.push(word).map_err(|_| NoMemory)?;
    Ok(words)
}

/// A drill of this input over a site that was made from the sample catalogue, in which nothing is planned to fail: how it
/// ended, and the sink. The error is what kept the site or the sink from being made.
pub fn drill_in_memory(alloc: Global, input: Vec<u8>) -> Result<(Status, MemSink), Status>
    ensures { IfOk result (λ r. DrillsSample input.items r.0 (⟦<MemSink as Sink>⟧.contents r.1)) }
{
    let words = drill_words(alloc).map_err(|_| Status::NoMemory)?;
    let mut site = new_site(alloc)?;
    let mut source = MemSource::over(input, Vec::new(alloc));
    let mut sink = MemSink::make(alloc, Vec::new(alloc)).map_err(|_| Status::NoMemory)?;
    let status = run(alloc, &words, &mut site, &mut source, &mut sink);
    Ok((status, sink))
}
