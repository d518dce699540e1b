// What an object asks for: an arm of `act_by` for each order, and a function for each list of members. The members are
// read in turn, so the first that is at fault is told, and only then is another member looked for.
ghost use Rattle.std.specs.Prelude.{◌≡◌, [], ◌∷◌, codes};
ghost use Rattle.serde_json.specs.View.{view};
ghost use Rattle.qc_orders.specs.Orders.{act_of, by_object, Tells, whole, text};
ghost use Rattle.qc_orders.specs.Objects.{asked_along, asked_by};

use crate::error::OrderError;
use crate::object::Object;
use qc_base::Word;
use qc_protocol::{Act, Member, Order, RawCall};
use std::alloc::Global;

impl Object<'_> {
    /// A slot and nothing else.
    fn slot(&self, member: Member) -> Result<u64, Member>
        ensures { result ≡ asked_along self.now ((member, whole) ∷ []) (λ n. n) }
    {
        let slot = self.whole(member)?;
        self.only(&[member])?;
        Ok(slot)
    }

    /// A name and nothing else.
    fn name(&self, alloc: Global, member: Member) -> Result<Word, OrderError>
        ensures { Tells result (asked_along self.now ((member, text) ∷ []) (λ name. name)) }
    {
        let name = self.text(alloc, member)?;
        self.only(&[member])?;
        Ok(name)
    }

    /// A player's slot and an application.
    fn played(&self, alloc: Global) -> Result<(u64, Word), OrderError>
        ensures { Tells result
            (asked_along self.now ((Member.Player, whole) ∷ (Member.App, text) ∷ []) (λ player app. (player, app))) }
    {
        let player = self.whole(Member::Player)?;
        let app = self.text(alloc, Member::App)?;
        self.only(&[Member::Player, Member::App])?;
        Ok((player, app))
    }

    fn read_open(&self, alloc: Global) -> Result<Act, OrderError>
        ensures { Tells result (asked_by self.now (codes "open")) }
    {
        let client = self.whole(Member::Client)?;
        let app = self.text(alloc, Member::App)?;
        let component = self.text(alloc, Member::Component)?;
        self.only(&[Member::Client, Member::App, Member::Component])?;
        Ok(Act::OpenSlot(client, app, component))
    }

    fn read_call(&self, alloc: Global) -> Result<Act, OrderError>
        ensures { Tells result (asked_by self.now (codes "call")) }
    {
        let client = self.whole(Member::Client)?;
        let method = self.text(alloc, Member::Method)?;
        let args = self.args(alloc, Member::Args)?;
        self.only(&[Member::Client, Member::Method, Member::Args])?;
        Ok(Act::CallSlot(client, RawCall { method, args }))
    }

    fn read_send(&self, alloc: Global) -> Result<Act, OrderError>
        ensures { Tells result (asked_by self.now (codes "send")) }
    {
        let app = self.text(alloc, Member::App)?;
        let component = self.text(alloc, Member::Component)?;
        let calls = self.calls(alloc, Member::Calls)?;
        self.only(&[Member::App, Member::Component, Member::Calls])?;
        Ok(Act::Send(app, component, calls))
    }

    fn read_move(&self, alloc: Global) -> Result<Act, OrderError>
        ensures { Tells result (asked_by self.now (codes "move")) }
    {
        let from = self.text(alloc, Member::From)?;
        let to = self.text(alloc, Member::To)?;
        let batch = self.whole(Member::Batch)?;
        self.only(&[Member::From, Member::To, Member::Batch])?;
        Ok(Act::Move(from, to, batch))
    }

    fn read_switch(&self, alloc: Global) -> Result<Act, OrderError>
        ensures { Tells result (asked_by self.now (codes "switch")) }
    {
        let app = self.text(alloc, Member::App)?;
        let on = self.flag(Member::On)?;
        self.only(&[Member::App, Member::On])?;
        Ok(Act::Switch(app, on))
    }

    /// What the object asks for, by a word.
    fn act_by(&self, alloc: Global, word: &str) -> Result<Act, OrderError>
        ensures { Tells result (asked_by self.now word.now) }
    {
        match word {
            "open" => self.read_open(alloc),
            "call" => self.read_call(alloc),
            "commit" => Ok(Act::CommitSlot(self.slot(Member::Client)?)),
            "cancel" => Ok(Act::CancelSlot(self.slot(Member::Client)?)),
            "send" => self.read_send(alloc),
            "take" => {
                let (player, app) = self.played(alloc)?;
                Ok(Act::Take(player, app))
            }
            "play" => {
                let (player, app) = self.played(alloc)?;
                Ok(Act::Play(player, app))
            }
            "work" => Ok(Act::Work(self.slot(Member::Player)?)),
            "end" => Ok(Act::End(self.slot(Member::Player)?)),
            "phase" => Ok(Act::Phase(self.slot(Member::Player)?)),
            "move" => self.read_move(alloc),
            "switch" => self.read_switch(alloc),
            "queues" => Ok(Act::Queues(self.name(alloc, Member::App)?)),
            "table" => Ok(Act::Table(self.name(alloc, Member::Table)?)),
            "outside" => Ok(Act::Outside(self.name(alloc, Member::Resource)?)),
            _ => Err(OrderError::Malformed(Member::Do)),
        }
    }

    /// What the object asks for, by its word.
    fn act(&self, alloc: Global) -> Result<Act, OrderError>
        ensures { Tells result (act_of self.now.moment (view self.now.value.now)) }
    {
        let word = self.string(Member::Do)?;
        self.act_by(alloc, word)
    }

    /// The order that the object is.
    pub fn order(&self, alloc: Global) -> Result<Order, OrderError>
        ensures { Tells result (by_object self.now.moment (view self.now.value.now)) }
    {
        let at = self.moment()?;
        let act = self.act(alloc)?;
        Ok(Order { at, act })
    }
}
