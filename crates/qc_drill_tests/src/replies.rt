// What a drill replies, and what it leaves in the journal.
use super::*;
use crate::texts::*;
use qc_site::Site;
use std::test::Fail;

#[test]
fn lines_have_their_replies(rt: HostRuntime) -> Result<(), Fail> {
    let alloc = rt.alloc();
    let table: [(&[&[u8]], &[&[u8]]); 17] = [
        (&[], &[]),
        (&[SEND, LIST], &[SENT_1, LISTED_1]),
        (&[LIST_UNENDED], &[LISTED_NONE]),
        // moments never fall, a blank line has no reply, and an empty order is none
        (
            &[SEND_AT_5, BLANK, SEND_AT_3, EMPTY_ORDER, LIST],
            &[SENT_1, SENT_2, NO_MOMENT, LISTED_2_AT_5],
        ),
        (
            &[LIST_OF_ONE, NONSENSE, TAKE_BY_NO_PLAYER, LIST_AND_MORE],
            &[NO_LINE, NO_LINE, NO_PLAYER, ONE_MORE_MEMBER],
        ),
        (&[TAKE, LIST], &[NOTHING_DUE, LISTED_NONE]),
        (&[MOVE, LIST], &[MOVED_NONE, LISTED_NONE]),
        (&[SEND_AT_0_AND_5, LIST], &[SENT_1, LISTED_1_AT_5]),
        (&[SEND_MOST, LIST], &[SENT_1, LISTED_1]),
        (&[SEND_TOO_MUCH, LIST], &[BAD_AMOUNT, LISTED_NONE]),
        (&[LIST_NOT_UTF8], &[NO_LINE]),
        (
            &[STOCK, SOLD, NO_TABLE, TILL_AS_TABLE],
            &[STOCK_SHOWN, SOLD_SHOWN, UNKNOWN_TABLE, UNKNOWN_TABLE],
        ),
        // a table that is listed or refused moves the last moment, and nothing else
        (
            &[STOCK_AT_5, SEND, LIST],
            &[STOCK_SHOWN, SENT_1, LISTED_1_AT_5],
        ),
        (
            &[NO_TABLE_AT_5, SEND, STOCK, LIST],
            &[UNKNOWN_TABLE, SENT_1, STOCK_SHOWN, LISTED_1_AT_5],
        ),
        (
            &[TILL, POST, NO_RESOURCE, STOCK_AS_RESOURCE],
            &[TILL_SHOWN, POST_SHOWN, UNKNOWN_TABLE, UNKNOWN_TABLE],
        ),
        // so does a resource
        (
            &[TILL_AT_5, SEND, LIST],
            &[TILL_SHOWN, SENT_1, LISTED_1_AT_5],
        ),
        (
            &[NO_RESOURCE_AT_5, SEND, LIST],
            &[UNKNOWN_TABLE, SENT_1, LISTED_1_AT_5],
        ),
    ];
    for (input, replies) in table {
        let mut site = new_site(alloc)?;
        let (status, sink) = drill(alloc, &mut site, input)?;
        assert_eq!(rt; status, Status::Done);
        assert_eq!(rt; sink.contents(), joined(alloc, replies)?.as_slice());
    }
    Ok(())
}

#[test]
fn a_drill_goes_on_where_the_last_one_ended(rt: HostRuntime) -> Result<(), Fail> {
    let alloc = rt.alloc();
    let mut site = new_site(alloc)?;
    let made = site.len(FILE)?;
    drill(alloc, &mut site, &[SEND, LIST])?;
    let mut bytes = [0u8; 128];
    let length = site.read(FILE, made.saturating_sub(1), &mut bytes)?;
    assert_eq!(rt; bytes.get(..length), Some(&GROUP[..]));
    let (status, sink) = drill(alloc, &mut site, &[LIST, SEND])?;
    assert_eq!(rt; status, Status::Done);
    assert_eq!(rt;
        sink.contents(),
        joined(alloc, &[LISTED_1, SENT_2])?.as_slice()
    );
    assert_eq!(rt; site.len(FILE)?.saturating_sub(made), 128);
    Ok(())
}

#[test]
fn a_drill_in_memory_has_its_site_from_the_sample(rt: HostRuntime) -> Result<(), Fail> {
    let alloc = rt.alloc();
    let input = joined(alloc, &[SEND, LIST])?;
    let (status, sink) = drill_in_memory(alloc, input).unwrap_or((
        Status::BadWords,
        MemSink::make(alloc, Vec::new(alloc))?,
    ));
    assert_eq!(rt; status, Status::Done);
    assert_eq!(rt;
        sink.contents(),
        joined(alloc, &[SENT_1, LISTED_1])?.as_slice()
    );
    Ok(())
}

#[test]
fn other_words_are_bad_words(rt: HostRuntime) -> Result<(), Fail> {
    let alloc = rt.alloc();
    let mut site = new_site(alloc)?;
    let made = site.len(FILE)?;
    let table: [&[&str]; 5] = [&[], &[""], &["Drill"], &["drill", "drill"], &["replay"]];
    for words in table {
        let input = joined(alloc, &[SEND])?;
        let (status, sink) = run_words(alloc, &mut site, words, input, NOTHING)?;
        assert_eq!(rt; (status, sink.contents().len()), (Status::BadWords, 0));
    }
    assert_eq!(rt; site.len(FILE)?, made);
    Ok(())
}
