// Orders as they are read from a line.
ghost use Rattle.std.specs.Prelude.{◌≡◌, List, IfOk};

use qc_base::{Moment, NoMemory, Word};
use std::alloc::Global;
use std::marker::Model;

/// An argument as it stands in a line, before it is compared with the parameter (docs/FORMATS.md,
/// "Order lines").
#[derive(Debug, Drop)]
pub enum RawArg {
    /// A string, which may be no text.
    Text(Word),
    /// A whole number, which may be past 10^15.
    Whole(u64),
    /// Anything else.
    Other,
}

impl RawArg {
    /// A copy, with memory of its own. The error is want of memory.
    pub fn copy(&self, alloc: Global) -> Result<RawArg, NoMemory>
        ensures { IfOk result (λ a. a ≡ self.now) }
    {
        Ok(match self {
            RawArg::Text(text) => RawArg::Text(text.copy(alloc)?),
            RawArg::Whole(n) => RawArg::Whole(*n),
            RawArg::Other => RawArg::Other,
        })
    }
}

/// The arguments of a call as it stands in a line, in order.
#[derive(Debug, Drop)]
pub struct RawArgs(Vec<RawArg>);

impl Model for RawArgs {
    ghost use Rattle.std.specs.Prelude.{List};
    ghost use Rattle.qc_protocol.specs.declared.order.RawArg.{RawArg};

    ghost Value = { List RawArg };

    ghost view = { λ a. a.0.items };
}

impl RawArgs {
    /// The arguments of a vector. This takes no memory.
    pub fn over(items: Vec<RawArg>) -> RawArgs
        ensures { result ≡ items.items }
    {
        RawArgs(items)
    }

    /// The items, in order.
    pub fn as_slice(&self) -> &[RawArg]
        ensures { result.now ≡ self.now }
    {
        self.0.as_slice()
    }

    /// A copy, with memory of its own. The error is want of memory.
    pub fn copy(&self, alloc: Global) -> Result<RawArgs, NoMemory>
        ensures { IfOk result (λ a. a ≡ self.now) }
    {
        let mut items = Vec::new(alloc);
        for arg in self.0.iter() {
            let copied = arg.copy(alloc)?;
            items.push(copied).map_err(|_| NoMemory)?;
        }
        Ok(RawArgs(items))
    }
}

/// A call as it stands in a line.
#[derive(Debug, Drop)]
pub struct RawCall {
    /// A string, which may be no name.
    pub method: Word,
    pub args: RawArgs,
}

impl RawCall {
    /// A copy, with memory of its own. The error is want of memory.
    pub fn copy(&self, alloc: Global) -> Result<RawCall, NoMemory>
        ensures { IfOk result (λ c. c ≡ self.now) }
    {
        let method = self.method.copy(alloc)?;
        let args = self.args.copy(alloc)?;
        Ok(RawCall { method, args })
    }
}

/// The calls of an order as they stand in a line, in order.
#[derive(Debug, Drop)]
pub struct RawCalls(Vec<RawCall>);

impl Model for RawCalls {
    ghost use Rattle.std.specs.Prelude.{List};
    ghost use Rattle.qc_protocol.specs.declared.order.RawCall.{RawCall};

    ghost Value = { List RawCall };

    ghost view = { λ a. a.0.items };
}

impl RawCalls {
    /// The calls of a vector. This takes no memory.
    pub fn over(items: Vec<RawCall>) -> RawCalls
        ensures { result ≡ items.items }
    {
        RawCalls(items)
    }

    /// The items, in order.
    pub fn as_slice(&self) -> &[RawCall]
        ensures { result.now ≡ self.now }
    {
        self.0.as_slice()
    }

    /// A copy, with memory of its own. The error is want of memory.
    pub fn copy(&self, alloc: Global) -> Result<RawCalls, NoMemory>
        ensures { IfOk result (λ a. a ≡ self.now) }
    {
        let mut items = Vec::new(alloc);
        for call in self.0.iter() {
            let copied = call.copy(alloc)?;
            items.push(copied).map_err(|_| NoMemory)?;
        }
        Ok(RawCalls(items))
    }
}

/// What an order asks for (docs/FORMATS.md, "Order lines"). A slot is any whole number, and a word is
/// any string: the hub looks whether there is such a thing.
#[derive(Debug, Drop)]
pub enum Act {
    /// The client's slot, the application and the component.
    OpenSlot(u64, Word, Word),
    /// The client's slot and the call.
    CallSlot(u64, RawCall),
    CommitSlot(u64),
    CancelSlot(u64),
    /// The application, the component and the calls.
    Send(Word, Word, RawCalls),
    /// The player's slot and the application.
    Take(u64, Word),
    Work(u64),
    End(u64),
    Phase(u64),
    /// The player's slot and the application.
    Play(u64, Word),
    /// The names of the source and of the destination, and the batch.
    Move(Word, Word, u64),
    /// The application, and whether it is to be on.
    Switch(Word, bool),
    /// The application.
    Queues(Word),
    /// The table.
    Table(Word),
    /// The resource.
    Outside(Word),
}

impl Act {
    /// A copy, with memory of its own. The error is want of memory.
    pub fn copy(&self, alloc: Global) -> Result<Act, NoMemory>
        ensures { IfOk result (λ a. a ≡ self.now) }
    {
        Ok(match self {
            Act::OpenSlot(client, app, component) => Act::OpenSlot(
                *client,
                app.copy(alloc)?,
                component.copy(alloc)?,
            ),
            Act::CallSlot(client, call) => Act::CallSlot(*client, call.copy(alloc)?),
            Act::CommitSlot(client) => Act::CommitSlot(*client),
            Act::CancelSlot(client) => Act::CancelSlot(*client),
            Act::Send(app, component, calls) => Act::Send(
                app.copy(alloc)?,
                component.copy(alloc)?,
                calls.copy(alloc)?,
            ),
            Act::Take(player, app) => Act::Take(*player, app.copy(alloc)?),
            Act::Work(player) => Act::Work(*player),
            Act::End(player) => Act::End(*player),
            Act::Phase(player) => Act::Phase(*player),
            Act::Play(player, app) => Act::Play(*player, app.copy(alloc)?),
            Act::Move(from, to, batch) => Act::Move(from.copy(alloc)?, to.copy(alloc)?, *batch),
            Act::Switch(app, on) => Act::Switch(app.copy(alloc)?, *on),
            Act::Queues(app) => Act::Queues(app.copy(alloc)?),
            Act::Table(table) => Act::Table(table.copy(alloc)?),
            Act::Outside(resource) => Act::Outside(resource.copy(alloc)?),
        })
    }
}

/// An order line: what it asks for, and its own moment (docs/FORMATS.md, "Order lines").
#[derive(Debug, Drop)]
pub struct Order {
    pub at: Moment,
    pub act: Act,
}

impl Order {
    /// A copy, with memory of its own. The error is want of memory.
    pub fn copy(&self, alloc: Global) -> Result<Order, NoMemory>
        ensures { IfOk result (λ o. o ≡ self.now) }
    {
        let act = self.act.copy(alloc)?;
        Ok(Order { at: self.at, act })
    }
}

/// The member of a line that is at fault (docs/FORMATS.md, "Order lines"). `Line` is the line as a
/// whole, and `Unknown` is a member that the order doesn't have.
#[derive(Clone, Copy, Debug, PartialEq, Eq)]
pub enum Member {
    Line,
    Unknown,
    At,
    Do,
    Client,
    App,
    Component,
    Method,
    Args,
    Calls,
    Player,
    From,
    To,
    Batch,
    On,
    Table,
    Resource,
}

impl Member {
    /// The same value again.
    pub fn copy(&self) -> Member
        ensures { result ≡ self.now }
    {
        *self
    }
}
