// The recorders of the clients.
ghost use Rattle.std.specs.Prelude.{◌≡◌, ◌∷◌, [], None, Some, true, IfOk, option_map};
ghost use Rattle.qc_machine.specs.Refuse.{first_some};
ghost use Rattle.qc_machine.specs.Sites.{no_clients};
ghost use Rattle.qc_machine.specs.Slots.{is_slot, out_of_slots, client_busy, idle};
ghost use Rattle.qc_machine.specs.State.{in_slot, set_slot};

use qc_base::NoMemory;
use qc_protocol::Refusal;
use qc_recorder::Recorder;
use std::alloc::Global;
use std::marker::Model;

const SLOTS: u64 = 16;

/// What each client's recorder holds, for the clients 1 to 16. Contracts see the list of these recordings, None where a
/// client has no recorder open.
#[derive(Drop)]
pub(crate) struct Clients {
    slots: Vec<Option<Recorder>>,
}

impl Model for Clients {
    ghost use Rattle.std.specs.Prelude.{◌≡◌, List, Option, length};
    ghost use Rattle.qc_base.specs.declared.recording.Recording.{Recording};

    ghost Value = { List (Option Recording) };

    ghost view = { λ c. c.slots.items };

    ghost invariant = { λ c. length c.slots.items ≡ 16 };
}

// Whether there is a slot of this number.
fn is_slot(client: u64) -> bool
    ensures { result ≡ is_slot client }
{
    (1..=SLOTS).contains(&client)
}

impl Clients {
    /// No recorder is open. The error is want of memory.
    pub(crate) fn make(alloc: Global) -> Result<Clients, NoMemory>
        ensures { IfOk result (λ clients. clients ≡ no_clients) }
    {
        let mut slots = Vec::new(alloc);
        for _ in 0..SLOTS {
            slots.push(None).map_err(|_| NoMemory)?;
        }
        Ok(Clients { slots })
    }

    /// What the client's recorder holds, or None where it has none open.
    pub(crate) fn recorder(&self, client: u64) -> Option<&Recorder>
        requires { is_slot client ≡ true }
        ensures { option_map (λ r. r.now) result ≡ in_slot client self.now }
    {
        self.slots[client as usize - 1].as_ref()
    }

    /// Why the client can't open a recorder, by its slot alone.
    pub(crate) fn busy(&self, client: u64) -> Option<Refusal>
        ensures { result ≡ first_some (out_of_slots client ∷ client_busy self.now client ∷ []) }
    {
        if !is_slot(client) {
            return Some(Refusal::NoSuchSlot(client));
        }
        let recorder = self.recorder(client)?;
        Some(Refusal::SlotBusy(recorder.count() as u64))
    }

    /// Why the client can't go on with its recorder, by its slot alone.
    pub(crate) fn idle(&self, client: u64) -> Option<Refusal>
        ensures { result ≡ first_some (out_of_slots client ∷ idle self.now client ∷ []) }
    {
        if !is_slot(client) {
            return Some(Refusal::NoSuchSlot(client));
        }
        match self.recorder(client) {
            Some(_) => None,
            None => Some(Refusal::SlotIdle),
        }
    }

    /// The client's recorder from now on.
    pub(crate) fn put(&mut self, client: u64, recorder: Recorder)
        requires { is_slot client ≡ true }
        ensures { self.new ≡ set_slot client (Some recorder) self.old }
    {
        self.slots[client as usize - 1] = Some(recorder);
    }

    /// Takes the client's recorder away, if it has one open.
    pub(crate) fn take(&mut self, client: u64) -> Option<Recorder>
        requires { is_slot client ≡ true }
        ensures taken { result ≡ in_slot client self.old }
        ensures idle { self.new ≡ set_slot client None self.old }
    {
        self.slots[client as usize - 1].take()
    }
}
