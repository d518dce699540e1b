// Drills as rows of lines and replies.
use crate::plain::plain_site;
use qc_base::NoMemory;
use qc_drill_tests::drill;
use qc_memsite::MemSite;
use std::alloc::Global;
use std::test::Fail;

pub const LIST: &str = r#"{"at":0,"do":"queues","app":"Orders"}"#;

pub const STOCK: &str = r#"{"at":0,"do":"table","table":"stock"}"#;

pub const TAKE_1: &str = r#"{"at":0,"do":"take","player":1,"app":"Orders"}"#;

pub const TAKE_2: &str = r#"{"at":0,"do":"take","player":2,"app":"Orders"}"#;

pub const TAKE_3: &str = r#"{"at":0,"do":"take","player":3,"app":"Orders"}"#;

pub const TAKE_4: &str = r#"{"at":0,"do":"take","player":4,"app":"Orders"}"#;

pub const WORK: &str = r#"{"at":0,"do":"work","player":1}"#;

pub const END: &str = r#"{"at":0,"do":"end","player":1}"#;

pub const PHASE: &str = r#"{"at":0,"do":"phase","player":1}"#;

pub const WORK_2: &str = r#"{"at":0,"do":"work","player":2}"#;

pub const END_2: &str = r#"{"at":0,"do":"end","player":2}"#;

pub const PHASE_2: &str = r#"{"at":0,"do":"phase","player":2}"#;

pub const PLAY: &str = r#"{"at":0,"do":"play","player":1,"app":"Orders"}"#;

pub const TAKE_4_BOLTS: &str =
    r#"{"at":0,"do":"send","app":"Orders","component":"Plain","calls":[["Take","bolt",4]]}"#;

pub const TAKE_11_BOLTS: &str =
    r#"{"at":0,"do":"send","app":"Orders","component":"Plain","calls":[["Take","bolt",11]]}"#;

pub const PLACE_11: &str =
    r#"{"at":0,"do":"send","app":"Orders","component":"Order","calls":[["Place","bolt",11]]}"#;

pub const DOOM: &str =
    r#"{"at":0,"do":"send","app":"Orders","component":"Plain","calls":[["Doom"]]}"#;

pub const PLACE_4: &str =
    r#"{"at":0,"do":"send","app":"Orders","component":"Order","calls":[["Place","bolt",4]]}"#;

pub const SWITCH_OFF: &str = r#"{"at":0,"do":"switch","app":"Orders","on":false}"#;

pub const LISTED_1: &str =
    "queues Orders 1/0/0; Orders_0; Orders_1; Orders_2; Orders_3; Orders_4; Orders_DeadQueue; consumed 0";

pub const CONSUMED_1: &str =
    "queues Orders; Orders_0; Orders_1; Orders_2; Orders_3; Orders_4; Orders_DeadQueue; consumed 1";

pub const CONSUMED_2: &str =
    "queues Orders; Orders_0; Orders_1; Orders_2; Orders_3; Orders_4; Orders_DeadQueue; consumed 2";

pub const OPENED: &str = "table stock \"bolt\" 10, \"nut\" 3; total 13";

pub const LESS_4_BOLTS: &str = "table stock \"bolt\" 6, \"nut\" 3; total 9";

pub const NOTHING_DUE: &str = "refused 20 NothingDue earliest none blocked 0";

// Lines and their replies, one of each a row.
pub type Rows = &'static [(&'static str, &'static str)];

pub fn put_line(out: &mut Vec<u8>, line: &str) -> Result<(), NoMemory> {
    out.extend_from_slice(line.as_bytes())
        .map_err(|_| NoMemory)?;
    out.push(b'\n').map_err(|_| NoMemory)
}

// The lines, and their replies.
pub fn both(alloc: Global, rows: &[(&str, &str)]) -> Result<(Vec<u8>, Vec<u8>), NoMemory> {
    let mut lines = Vec::new(alloc);
    let mut replies = Vec::new(alloc);
    for (line, reply) in rows {
        put_line(&mut lines, line)?;
        put_line(&mut replies, reply)?;
    }
    Ok((lines, replies))
}

// Carries out these lines, each by a drill of its own.
pub fn carry_out(alloc: Global, site: &mut MemSite, lines: &[&str]) -> Result<(), Fail> {
    for line in lines {
        drill(alloc, site, &[line.as_bytes()])?;
    }
    Ok(())
}

// A site on which these lines were carried out.
pub fn site_after(alloc: Global, lines: &[&str]) -> Result<MemSite, Fail> {
    let mut site = plain_site(alloc)?;
    carry_out(alloc, &mut site, lines)?;
    Ok(site)
}
