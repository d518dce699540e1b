ghost use Rattle.std.specs.Prelude.{◌≡◌, [], IfOk, IfSome};
ghost use Rattle.qc_players.specs.Players.{ArePlayedBy, IsPlayedBy};

use crate::{PlayerOrder, Players};
use qc_base::{Amount, Arg, Args, Call, Calls, Kind, Name, Recording, Row, Space, Text};
use qc_catalogue::{Catalogue, sample};
use qc_play::CallState;
use qc_protocol::{Refusal, Reply};
use qc_txn::{Attempt, effects_of, is_playable};
use std::alloc::Global;
use std::test::Fail;

// A call that takes so many bolts.
fn call_of(alloc: Global, bolts: u64) -> Option<Call> {
    let mut args = Vec::new(alloc);
    args.push(Arg::Text(Text::read(b"bolt")?)).ok()?;
    args.push(Arg::Whole(Amount::new(bolts)?)).ok()?;
    Some(Call {
        method: Name::read(b"Take")?,
        args: Args::over(args),
    })
}

fn recorded(alloc: Global, bolts: u64) -> Option<Recording> {
    let mut calls = Vec::new(alloc);
    calls.push(call_of(alloc, bolts)?).ok()?;
    Some(Recording {
        app: Name::read(b"Orders")?,
        component: Name::read(b"Plain")?,
        calls: Calls::over(calls),
    })
}

fn bolts() -> Option<Row> {
    Some(Row {
        space: Space::Inside,
        name: Name::read(b"stock")?,
        key: Text::read(b"bolt")?,
    })
}

// Ten bolts.
fn state(alloc: Global) -> Option<CallState>
    ensures { IfSome result (λ s. s.play.records ≡ []) }
{
    let mut rows = Vec::new(alloc);
    rows.push((bolts()?, Some(Amount::new(10)?))).ok()?;
    match CallState::make(alloc, rows.as_slice(), 0) {
        Ok(state) => Some(state),
        Err(_) => None,
    }
}

// An attempt on a message that takes so many bolts.
fn begin(alloc: Global, catalogue: &Catalogue, bolts: u64) -> Option<Attempt>
    ensures { IfSome result (λ a. IsPlayedBy catalogue.now a) }
{
    let recording = recorded(alloc, bolts)?;
    if recording.calls.as_slice().len() > 64
        || !is_playable(catalogue, &recording, Kind::Normal)
        || effects_of(catalogue, &recording, Kind::Normal) > 0
    {
        return None;
    }
    let state = state(alloc)?;
    match Attempt::begin(alloc, catalogue, 7, 4, Kind::Normal, &recording, state) {
        Ok(attempt) => Some(attempt),
        Err(_) => None,
    }
}

// Player 3 holds such an attempt, and no other player holds any.
fn holding(alloc: Global, catalogue: &Catalogue, bolts: u64) -> Option<Players>
    ensures { IfSome result (λ players. ArePlayedBy catalogue.now players) }
{
    let attempt = begin(alloc, catalogue, bolts)?;
    let Ok(mut players) = Players::make(alloc) else {
        return None;
    };
    match players.hold(alloc, 3, attempt) {
        Ok(()) => Some(players),
        Err(_) => None,
    }
}

#[test]
fn a_player_holds_an_attempt_to_its_end(rt: HostRuntime) -> Result<(), Fail> {
    let alloc = rt.alloc();
    let catalogue = Catalogue::read(alloc, sample().as_bytes()).map_err(|_| "no catalogue")?;
    let Some(mut players) = holding(alloc, &catalogue, 4) else {
        return Err(Fail::from("nothing is held"));
    };
    assert!(rt; players.busy(0) == Some(Refusal::NoSuchSlot(0)));
    assert!(rt; players.busy(3) == Some(Refusal::SlotBusy(7)));
    assert!(rt; players.unfit(4, PlayerOrder::Work) == Some(Refusal::SlotIdle));
    assert!(rt; players.unfit(3, PlayerOrder::End).is_some());
    assert_eq!(rt; (players.count(), players.without_fact()), (1, 1));
    assert!(rt; players.held().has(7));
    if players.unfit(3, PlayerOrder::Work).is_none() {
        assert!(rt; matches!(players.work(3, &catalogue), Reply::Worked(1, 0)));
    }
    if players.unfit(3, PlayerOrder::End).is_none() {
        assert_eq!(rt; players.decide(3), Ok(()));
    }
    assert!(rt; players.unfit(3, PlayerOrder::Phase).is_none());
    assert_eq!(rt; (players.count(), players.without_fact()), (1, 0));
    assert!(rt; players.release(3).is_some());
    assert!(rt; !players.held().has(7));
    assert!(rt; players.busy(3).is_none() && players.count() == 0);
    Ok(())
}
