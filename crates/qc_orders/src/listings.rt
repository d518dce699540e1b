// Queues and rows as text.
ghost use Rattle.std.specs.Prelude.{◌≡◌, ◌++◌, OnOk, decimal, map};
ghost use Rattle.qc_protocol.specs.Texts.{after_space, queue_name, waiting_text, queue_text, queues_text, amount_text, row_text, rows_text};

use crate::text::{
    Show, put, put_after_space, put_bytes, put_number, put_numbered, put_quoted, put_total,
};
use qc_base::{Amount, Ids, Name, NoMemory, Queue, Queues, Waiting};
use qc_protocol::{ShownRow, ShownRows};

impl Show for u64 {
    ghost text = { decimal };

    fn show(&self, out: &mut Vec<u8>) -> Result<(), NoMemory> {
        put_number(out, *self)
    }
}

impl Show for Waiting {
    ghost text = { waiting_text };

    fn show(&self, out: &mut Vec<u8>) -> Result<(), NoMemory> {
        put_number(out, self.id)?;
        put_numbered(out, "/", u64::from(self.tries))?;
        put_numbered(out, "/", self.due.get())
    }
}

fn put_amount(out: &mut Vec<u8>, amount: Option<Amount>) -> Result<(), NoMemory>
    ensures { OnOk result (out.new.items ≡ out.old.items ++ amount_text amount) }
{
    match amount {
        Some(amount) => put_number(out, amount.get()),
        None => put(out, "missing"),
    }
}

impl Show for ShownRow {
    ghost text = { row_text };

    fn show(&self, out: &mut Vec<u8>) -> Result<(), NoMemory> {
        put_quoted(out, self.key.as_bytes())?;
        put(out, " ")?;
        put_amount(out, self.amount)
    }
}

/// The name of queue 0 to 6 of an application.
fn put_queue_name(out: &mut Vec<u8>, app: &Name, queue: u64) -> Result<(), NoMemory>
    ensures { OnOk result (out.new.items ≡ out.old.items ++ queue_name app.now queue) }
{
    put_bytes(out, app.as_bytes())?;
    match queue {
        0 => Ok(()),
        6 => put(out, "_DeadQueue"),
        _ => put_numbered(out, "_", queue - 1),
    }
}

fn put_queue(out: &mut Vec<u8>, app: &Name, number: u64, queue: &Queue) -> Result<(), NoMemory>
    ensures { OnOk result (out.new.items ≡ out.old.items ++ queue_text app.now number queue.now) }
{
    put_queue_name(out, app, number)?;
    put_after_space(out, queue.as_slice())?;
    put(out, "; ")
}

fn put_waiting(out: &mut Vec<u8>, app: &Name, queues: &[Queue]) -> Result<(), NoMemory>
    ensures { OnOk result (out.new.items ≡ out.old.items ++ queues_text app.now 0 queues.now) }
{
    for (number, queue) in queues.iter().enumerate() {
        put_queue(out, app, number as u64, queue)?;
    }
    Ok(())
}

/// The queues of an application, the last being that of its dead messages.
pub fn put_queues(
    out: &mut Vec<u8>,
    app: &Name,
    queues: &Queues,
    dead: &Ids,
) -> Result<(), NoMemory>
    ensures { OnOk result (out.new.items
        ≡ out.old.items ++ (queues_text app.now 0 queues.now ++ queue_name app.now 6 ++ after_space (map decimal dead.now))) }
{
    put_waiting(out, app, queues.as_slice())?;
    put_queue_name(out, app, 6)?;
    put_after_space(out, dead.as_slice())
}

/// A table or resource with its rows and their sum.
pub fn put_rows(
    out: &mut Vec<u8>,
    name: &Name,
    rows: &ShownRows,
    total: u128,
) -> Result<(), NoMemory>
    ensures { OnOk result (out.new.items ≡ out.old.items ++ (name.now ++ rows_text rows.now total)) }
{
    put_bytes(out, name.as_bytes())?;
    put_after_space(out, rows.as_slice())?;
    put(out, "; total ")?;
    put_total(out, total)
}
