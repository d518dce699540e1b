use crate::{Act, RawArg, RawArgs, RawCall, Reply, Status};
use qc_base::{Heard, Name, Notice, Notices, Word};
use std::alloc::Global;
use std::test::Fail;

fn copies_an_act(alloc: Global) -> Result<bool, Fail> {
    let call = RawCall {
        method: Word::over(Vec::from_slice(alloc, b"Notify")?),
        args: RawArgs::over(vec![in alloc; RawArg::Whole(2)]?),
    };
    let act = Act::CallSlot(1, call);
    Ok(match act.copy(alloc)? {
        Act::CallSlot(client, call) => client == 1 && call.args.as_slice().len() == 1,
        _ => false,
    })
}

fn copies_a_reply(alloc: Global) -> Result<bool, Fail> {
    let notice = Notice {
        resource: Name::read(b"till").ok_or("no name")?,
        heard: Heard::BeginAbort(true),
    };
    let reply = Reply::Committed(7, Notices::over(vec![in alloc; notice]?));
    Ok(match reply.copy(alloc)? {
        Reply::Committed(attempt, notices) => attempt == 7 && notices.as_slice().len() == 1,
        _ => false,
    })
}

#[test]
fn what_owns_memory_is_copied(rt: HostRuntime) -> Result<(), Fail> {
    let alloc = rt.alloc();
    assert!(rt; copies_an_act(alloc)?);
    assert!(rt; copies_a_reply(alloc)?);
    Ok(())
}

#[test]
fn a_status_has_its_number(rt: HostRuntime) {
    assert_eq!(rt; Status::InputLong.code(), 10);
}
