// The reply to a line.
ghost use Rattle.std.specs.Prelude.{◌≡◌, IfOk, IsErrOf};
ghost use Rattle.qc_protocol.specs.Texts.{reply_text};
ghost use Rattle.qc_machine.specs.Sites.{IsSiteOf};
ghost use Rattle.qc_machine.specs.State.{State};
ghost use Rattle.qc_hub.specs.Stands.{IsHubOf};
ghost use Rattle.qc_hub.specs.Calls.{IsReady, LeavesStanding, StepsBy};
ghost use Rattle.qc_drill.specs.Calls.{AnswersFrom};
ghost use Rattle.qc_drill.specs.Drill.{asked, asked_at, line_step, with_newline};

use qc_base::NoMemory;
use qc_hub::{Hub, HubError};
use qc_orders::{OrderError, is_blank, print_reply, read_order};
use qc_protocol::{Refusal, Reply};
use qc_site::Site;
use std::alloc::Global;

/// The text of a reply, and a newline.
pub(crate) fn reply_line(alloc: Global, reply: &Reply) -> Result<Vec<u8>, NoMemory>
    ensures { IfOk result (λ v. v.items ≡ with_newline (reply_text reply.now)) }
{
    let mut text = print_reply(alloc, reply)?;
    text.push(b'\n').map_err(|_| NoMemory)?;
    Ok(text)
}

// The reply to a line that isn't blank.
fn reply_to<S: Site>(
    alloc: Global,
    hub: &mut Hub,
    site: &mut S,
    line: &[u8],
) -> Result<Reply, HubError>
    requires { IsReady S.Site hub.old site.old }
    ensures { StepsBy S.Site (asked_at (asked line.now)) (λ s. line_step s line.now) result hub.old site.old hub.new
        site.new }
{
    match read_order(alloc, line) {
        Ok(order) => hub.apply(alloc, site, &order),
        Err(OrderError::LineTooLong) => Ok(Reply::Refused(Refusal::LineTooLong)),
        Err(OrderError::Malformed(member)) => Ok(Reply::Refused(Refusal::Malformed(member))),
        Err(OrderError::NoMemory) => Err(HubError::NoMemory),
    }
}

/// The text of the reply to a line and a newline, or nothing for a blank line.
///
/// The line is given without its byte 10. `SiteFault` comes only where the site's count of faults rose; the hub is in
/// fault then. After `NoMemory` the line's facts may stand or not.
pub fn answer_line<S: Site>(
    alloc: Global,
    hub: &mut Hub,
    site: &mut S,
    line: &[u8],
) -> Result<Vec<u8>, HubError>
    requires { IsReady S.Site hub.old site.old }
    ensures answers { S.told → (s : State) → IsHubOf hub.old s → IsSiteOf (S.shown site.old) s
        → AnswersFrom S.Site s line.now result site.old hub.new site.new }
    ensures leaves { LeavesStanding S.Site (IsErrOf result HubError.SiteFault) hub.old site.old hub.new site.new }
{
    if is_blank(line) {
        return Ok(Vec::new(alloc));
    }
    let reply = reply_to(alloc, hub, site, line)?;
    match reply_line(alloc, &reply) {
        Ok(text) => Ok(text),
        Err(_) => Err(HubError::NoMemory),
    }
}
