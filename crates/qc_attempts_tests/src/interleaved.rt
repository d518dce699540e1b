// Two players, in every order of what they do.
use crate::rows::*;
use qc_drill_tests::drill;
use qc_memsite::Choice;
use qc_protocol::Status;
use std::alloc::Global;
use std::test::Fail;

const TAKE_2_NUTS: &str =
    r#"{"at":0,"do":"send","app":"Orders","component":"Plain","calls":[["Take","nut",2]]}"#;

// Two messages and what the rules say of them: whether they share a row, how many were taken, and whether an attempt is
// held.
#[derive(Clone, Copy)]
struct Rules {
    meet: bool,
    taken: u64,
    held: bool,
}

// How many of its four orders a player has given, and the number of its attempt. That is the one of its message too,
// since both go by who takes first. 0 is none.
#[derive(Clone, Copy)]
struct Player {
    number: u64,
    given: u64,
    attempt: u64,
}

// The first attempt has the first message. The second has the other one, where its row isn't held.
fn reply_to_take(alloc: Global, rules: &mut Rules, player: &mut Player) -> Result<String, Fail> {
    if rules.meet && rules.held {
        return Ok(format!(in alloc; "refused 20 NothingDue earliest none blocked 1")?);
    }
    rules.taken = rules.taken.saturating_add(1);
    rules.held = true;
    player.attempt = rules.taken;
    let number = player.attempt;
    Ok(format!(in alloc; "taken {number} attempt {number} normal calls 1")?)
}

fn reply_to(alloc: Global, rules: &mut Rules, player: &mut Player) -> Result<String, Fail> {
    if player.given == 0 {
        return reply_to_take(alloc, rules, player);
    }
    let number = player.attempt;
    if number == 0 {
        return Ok(format!(in alloc; "refused 6 SlotIdle")?);
    }
    if player.given == 1 {
        return Ok(format!(in alloc; "worked call 1 left 0")?);
    }
    if player.given == 2 {
        return Ok(format!(in alloc; "committed attempt {number}: -")?);
    }
    rules.held = false;
    Ok(format!(in alloc; "finished attempt {number} commit: -")?)
}

fn line_of(alloc: Global, player: &Player) -> Result<String, Fail> {
    let number = player.number;
    let (word, app) = match player.given {
        0 => ("take", ",\"app\":\"Orders\""),
        1 => ("work", ""),
        2 => ("end", ""),
        _ => ("phase", ""),
    };
    Ok(format!(in alloc; "{{\"at\":0,\"do\":\"{word}\",\"player\":{number}{app}}}")?)
}

// A player's next order, and its reply.
fn put_order(
    alloc: Global,
    rules: &mut Rules,
    player: &mut Player,
    lines: &mut Vec<u8>,
    replies: &mut Vec<u8>,
) -> Result<(), Fail> {
    let line = line_of(alloc, player)?;
    let reply = reply_to(alloc, rules, player)?;
    player.given = player.given.saturating_add(1);
    put_line(lines, line.as_str())?;
    put_line(replies, reply.as_str())?;
    Ok(())
}

// The listings behind both players' orders: each attempt took four bolts, or the second one two nuts.
fn put_listings(
    alloc: Global,
    rules: &Rules,
    lines: &mut Vec<u8>,
    replies: &mut Vec<u8>,
) -> Result<(), Fail> {
    put_line(lines, STOCK)?;
    put_line(lines, LIST)?;
    if !rules.meet {
        put_line(replies, "table stock \"bolt\" 6, \"nut\" 1; total 7")?;
        put_line(replies, CONSUMED_2)?;
    } else if rules.taken == 1 {
        put_line(replies, LESS_4_BOLTS)?;
        put_line(
            replies,
            "queues Orders 2/0/0; Orders_0; Orders_1; Orders_2; Orders_3; Orders_4; Orders_DeadQueue; consumed 1",
        )?;
    } else {
        put_line(replies, "table stock \"bolt\" 2, \"nut\" 3; total 5")?;
        put_line(replies, CONSUMED_2)?;
    }
    Ok(())
}

// The eight orders of two players, and their replies. Each 1 among the eight bits is an order of the first one.
fn interleaved(alloc: Global, bits: u8, meet: bool) -> Result<(Vec<u8>, Vec<u8>), Fail> {
    let mut rules = Rules {
        meet,
        taken: 0,
        held: false,
    };
    let mut first = Player {
        number: 1,
        given: 0,
        attempt: 0,
    };
    let mut second = Player {
        number: 2,
        given: 0,
        attempt: 0,
    };
    let mut lines = Vec::new(alloc);
    let mut replies = Vec::new(alloc);
    let mut left = bits;
    for _ in 0..8 {
        if left % 2 == 1 {
            put_order(alloc, &mut rules, &mut first, &mut lines, &mut replies)?;
        } else {
            put_order(alloc, &mut rules, &mut second, &mut lines, &mut replies)?;
        }
        left /= 2;
    }
    put_listings(alloc, &rules, &mut lines, &mut replies)?;
    Ok((lines, replies))
}

// How many orders of the two players' orders there are, and the first one that isn't answered by the rules.
fn all_interleaved(
    alloc: Global,
    messages: &[&str],
    meet: bool,
) -> Result<(u64, Option<u8>), Fail> {
    let site = site_after(alloc, messages)?;
    let mut count = 0u64;
    for bits in 0..=255u8 {
        if bits.count_ones() != 4 {
            continue;
        }
        count = count.saturating_add(1);
        let (lines, replies) = interleaved(alloc, bits, meet)?;
        let mut copy = site.crash_image(alloc, Choice::New)?;
        let (status, sink) = drill(alloc, &mut copy, &[lines.as_slice()])?;
        if status != Status::Done || sink.contents() != replies.as_slice() {
            return Ok((count, Some(bits)));
        }
    }
    Ok((count, None))
}

#[test]
fn players_on_other_rows_dont_meet(rt: HostRuntime) -> Result<(), Fail> {
    let alloc = rt.alloc();
    let messages = [TAKE_4_BOLTS, TAKE_2_NUTS];
    assert_eq!(rt; all_interleaved(alloc, &messages, false)?, (70, None));
    Ok(())
}

#[test]
fn players_on_the_same_rows_go_one_by_one(rt: HostRuntime) -> Result<(), Fail> {
    let alloc = rt.alloc();
    let messages = [TAKE_4_BOLTS, TAKE_4_BOLTS];
    assert_eq!(rt; all_interleaved(alloc, &messages, true)?, (70, None));
    Ok(())
}
