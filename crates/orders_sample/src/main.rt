//! Writes the sample catalogue that the programs have in them (docs/FORMATS.md, "Catalogue"). What it writes is compared
//! with `examples/orders.toml`.
#![tactic(auto)]

use qc_catalogue::sample;
use std::io;
use std::io::Write;

fn main(rt: HostRuntime) -> io::Result<()> {
    rt.stdout().write_all(sample().as_bytes())
}
