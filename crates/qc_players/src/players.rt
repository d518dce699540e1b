// The attempts that players hold.
ghost use Rattle.std.specs.Prelude.{◌≡◌, ◌≤◌, ℕ, length, Some, None, true, IfOk, OnOk, OnErr, option_map};
ghost use Rattle.qc_machine.specs.Attempts.{greatest};
ghost use Rattle.qc_catalogue.specs.declared.catalogue.Catalogue.{Catalogue};
ghost use Rattle.qc_machine.specs.Slots.{is_slot};
ghost use Rattle.qc_machine.specs.Sites.{no_players};
ghost use Rattle.qc_machine.specs.State.{HeldAttempt, in_slot, set_slot};
ghost use Rattle.qc_players.specs.Orders.{Ends, Works, busy_for, unfit_for};
ghost use Rattle.qc_players.specs.Players.{ArePlayedBy, IsApart, SameHoldings};
ghost use Rattle.qc_players.specs.Players.{count_without_fact, held_in, held_of, holdings_in, numbers_of, players_of};
ghost use Rattle.qc_players.specs.declared.order.PlayerOrder.TheVariants.{Work as work_order, End as end_order};

use crate::attempts::{greater, is_without_fact, number_in, work_on};
use crate::order::PlayerOrder;
use qc_base::{NoMemory, Why};
use qc_catalogue::Catalogue;
use qc_protocol::{Refusal, Reply};
use qc_rows::Held;
use qc_txn::Attempt;
use std::alloc::Global;
use std::marker::Model;

const SLOTS: u64 = 16;

/// What each player holds, for the players 1 to 16 (docs/RULES.md, "Slots"). Contracts see the list of these attempts,
/// None where a player holds none.
#[derive(Debug, Drop)]
pub struct Players {
    slots: Vec<Option<Attempt>>,
    // The messages and rows of the attempts in the slots.
    held: Held,
}

impl Model for Players {
    ghost use Rattle.std.specs.Prelude.{List, Option};
    ghost use Rattle.qc_txn.specs.Attempt.{AttemptView};
    ghost use Rattle.qc_players.specs.Players.{ArePlayers};

    ghost Value = { List (Option AttemptView) };

    ghost view = { λ p. p.slots.items };

    ghost invariant = { λ p. ArePlayers p.slots.items p.held };
}

/// Whether there is a slot of this number.
pub fn is_slot(number: u64) -> bool
    ensures { result ≡ is_slot number }
{
    (1..=SLOTS).contains(&number)
}

impl Players {
    /// No player holds an attempt. The error is want of memory.
    pub fn make(alloc: Global) -> Result<Players, NoMemory>
        ensures { IfOk result (λ players. players_of players ≡ no_players) }
    {
        let mut slots = Vec::new(alloc);
        for _ in 0..SLOTS {
            slots.push(None).map_err(|_| NoMemory)?;
        }
        let held = Held::make(alloc)?;
        Ok(Players { slots, held })
    }

    /// The attempt that the player holds, or None where it holds none.
    pub fn attempt(&self, player: u64) -> Option<&Attempt>
        requires { is_slot player ≡ true }
        ensures { option_map (λ a. a.now) result ≡ in_slot player self.now }
    {
        self.slots[player as usize - 1].as_ref()
    }

    /// Why the player can't take a message, by its slot alone.
    pub fn busy(&self, player: u64) -> Option<Refusal>
        ensures { result ≡ busy_for player (players_of self.now) }
    {
        if !is_slot(player) {
            return Some(Refusal::NoSuchSlot(player));
        }
        let attempt = self.attempt(player)?;
        Some(Refusal::SlotBusy(attempt.id()))
    }

    /// Why the player can't go on with its attempt by this order, by its slot alone.
    pub fn unfit(&self, player: u64, order: PlayerOrder) -> Option<Refusal>
        ensures { result ≡ unfit_for order player (players_of self.now) }
    {
        if !is_slot(player) {
            return Some(Refusal::NoSuchSlot(player));
        }
        let Some(attempt) = self.attempt(player) else {
            return Some(Refusal::SlotIdle);
        };
        let stage = attempt.stage();
        if order.serves(stage) {
            None
        } else {
            Some(Refusal::WrongStage(stage))
        }
    }

    /// The messages and rows that players hold.
    pub fn held(&self) -> &Held
        ensures { SameHoldings result.now (holdings_in (players_of self.now)) }
    {
        &self.held
    }

    /// How many players hold an attempt.
    pub fn count(&self) -> u64
        ensures value { result ≡ length (held_in (players_of self.now)) }
        ensures bound { result ≤ 16 }
    {
        let mut count = 0;
        for slot in self.slots.iter() {
            if slot.is_some() {
                count += 1;
            }
        }
        count
    }

    /// How many players hold an attempt that has no fact yet.
    pub fn without_fact(&self) -> u64
        ensures value { result ≡ count_without_fact (players_of self.now) }
        ensures bound { result ≤ 16 }
    {
        let mut count = 0;
        for slot in self.slots.iter() {
            if is_without_fact(slot) {
                count += 1;
            }
        }
        count
    }

    /// The greatest number of an attempt that a player holds, or 0.
    pub fn greatest(&self) -> u64
        ensures { result ≡ greatest (numbers_of (players_of self.now)) }
    {
        let mut most = 0;
        for slot in self.slots.iter() {
            most = greater(most, number_in(slot));
        }
        most
    }

    /// The player holds the attempt from now on, with its message and its rows. The error is want of memory, and
    /// nothing has changed then.
    pub fn hold(&mut self, alloc: Global, player: u64, attempt: Attempt) -> Result<(), NoMemory>
        requires free { busy_for player (players_of self.old) ≡ None }
        requires apart { IsApart (players_of self.old) (held_of attempt) }
        ensures held { OnOk result (self.new ≡ set_slot player (Some attempt) self.old) }
        ensures same { OnErr result (self.new ≡ self.old) }
    {
        let rows = attempt.rows(alloc)?;
        self.held
            .hold(alloc, attempt.number(), attempt.id(), rows.as_slice())?;
        self.slots[player as usize - 1] = Some(attempt);
        Ok(())
    }

    /// Runs the next call of the player's attempt by the catalogue that it plays by, and tells of it. This takes no
    /// memory.
    pub fn work(&mut self, player: u64, catalogue: &Catalogue) -> Reply
        requires fit { unfit_for work_order player (players_of self.old) ≡ None }
        requires played { ArePlayedBy catalogue.now self.old }
        ensures { (a : HeldAttempt) → in_slot player (players_of self.old) ≡ Some a
            → Works catalogue.now player self.old self.new result a }
    {
        let Some(attempt) = &mut self.slots[player as usize - 1] else {
            return Reply::SentNothing;
        };
        work_on(attempt, catalogue)
    }

    /// How the player's attempt ends: it is committed, or why it fails.
    pub fn decide(&mut self, player: u64) -> Result<(), Why>
        requires { unfit_for end_order player (players_of self.old) ≡ None }
        ensures { (c : Catalogue) → (a : HeldAttempt) → ArePlayedBy c self.old
            → in_slot player (players_of self.old) ≡ Some a → Ends c player self.old self.new result a }
    {
        let Some(attempt) = &mut self.slots[player as usize - 1] else {
            return Ok(());
        };
        attempt.decide()
    }

    /// Lets go what the player holds, if it holds an attempt: its message and its rows are free. This takes no memory.
    pub fn release(&mut self, player: u64) -> Option<Attempt>
        requires { is_slot player ≡ true }
        ensures released { result ≡ in_slot player self.old }
        ensures idle { self.new ≡ set_slot player None self.old }
    {
        let attempt = self.slots[player as usize - 1].take()?;
        self.held.release(attempt.number());
        Some(attempt)
    }
}
