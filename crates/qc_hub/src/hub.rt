// The hub, and which of its calls answers an order.
ghost use Rattle.std.specs.Prelude.{◌≡◌, ◌≤◌, length, max};
ghost use Rattle.qc_machine.specs.State.{State};
ghost use Rattle.qc_hub.specs.Stands.{IsHubOf};
ghost use Rattle.qc_hub.specs.Calls.{IsReady, CarriesOut};

use crate::clients::Clients;
use crate::error::HubError;
use qc_base::Moment;
use qc_catalogue::Catalogue;
use qc_frame::Log;
use qc_history::History;
use qc_journal::Journal;
use qc_machine::Limits;
use qc_players::Players;
use qc_protocol::{Act, Order, Reply};
use qc_site::Site;
use std::alloc::Global;

/// The service over one site: its logs, what the journal's facts have settled, what the clients' recorders and the
/// players hold, and the last moment seen.
#[derive(Drop)]
pub struct Hub {
    pub(crate) journal: Journal,
    pub(crate) log: Log,
    pub(crate) history: History,
    pub(crate) clients: Clients,
    pub(crate) players: Players,
    pub(crate) last: Moment,
    pub(crate) limits: Limits,
    pub(crate) in_fault: bool,
}

/// The later of two moments.
pub(crate) fn later(a: Moment, b: Moment) -> Moment
    ensures value { result ≡ max a b }
    ensures bound { result ≤ 1000000000000 }
{
    if a.get() < b.get() { b } else { a }
}

impl Hub {
    /// How many facts the history has.
    pub fn facts(&self) -> u64
        ensures { (s : State) → IsHubOf self.now s → result ≡ length s.history.facts }
    {
        self.history.facts()
    }

    /// The last moment seen, in seconds.
    pub fn last(&self) -> Moment
        ensures { (s : State) → IsHubOf self.now s → result ≡ s.last }
    {
        self.last
    }

    /// The catalogue in force.
    pub fn catalogue(&self) -> &Catalogue
        ensures { (s : State) → IsHubOf self.now s → result.now ≡ s.history.catalogue }
    {
        self.history.catalogue()
    }

    /// Whether the last call that took the site ended in `SiteFault`.
    pub fn in_fault(&self) -> bool
        ensures { result ≡ self.now.in_fault }
    {
        self.in_fault
    }

    /// One step of the machine (docs/RULES.md, "The machine").
    ///
    /// `SiteFault` comes only where the site's count of faults rose. The order's fact then stands or not (of a move,
    /// the first of its facts, as many as there are), the last moment seen has moved, and the hub is in fault. After
    /// `NoMemory` nothing changed but the last moment seen.
    pub fn apply<S: Site>(
        &mut self,
        alloc: Global,
        site: &mut S,
        order: &Order,
    ) -> Result<Reply, HubError>
        requires { IsReady S.Site self.old site.old }
        ensures { CarriesOut S.Site order.now result self.old site.old self.new site.new }
    {
        let at = order.at;
        match &order.act {
            Act::OpenSlot(client, app, component) => {
                self.open_client(alloc, at, *client, app.as_slice(), component.as_slice())
            }
            Act::CallSlot(client, call) => self.call_client(alloc, at, *client, call),
            Act::CommitSlot(client) => self.commit_client(alloc, site, at, *client),
            Act::CancelSlot(client) => self.cancel_client(at, *client),
            Act::Send(app, component, calls) => self.send(
                alloc,
                site,
                at,
                app.as_slice(),
                component.as_slice(),
                calls.as_slice(),
            ),
            Act::Take(player, app) => self.take(alloc, site, at, *player, app.as_slice()),
            Act::Work(player) => self.work(alloc, site, at, *player),
            Act::End(player) => self.end(alloc, site, at, *player),
            Act::Phase(player) => self.phase(alloc, site, at, *player),
            Act::Play(player, app) => self.play(alloc, site, at, *player, app.as_slice()),
            Act::Move(from, to, batch) => {
                self.move_messages(alloc, site, at, from.as_slice(), to.as_slice(), *batch)
            }
            Act::Switch(app, on) => self.switch_app(alloc, site, at, app.as_slice(), *on),
            Act::Queues(app) => self.queues(alloc, at, app.as_slice()),
            Act::Table(table) => self.table(alloc, at, table.as_slice()),
            Act::Outside(resource) => self.outside(alloc, site, at, resource.as_slice()),
        }
    }
}
