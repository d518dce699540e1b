// The commands of the program.
ghost use Rattle.std.specs.Prelude.{◌≡◌, ◌↔◌, ◌<◌, [], Some, length, true, false, IfSome};
ghost use Rattle.qc_protocol.specs.Texts.{lines_of};
ghost use Rattle.qc_site.specs.Disk.{LeavesOnly};
ghost use Rattle.qc_site.specs.Causes.{Rose};
ghost use Rattle.qc_site.specs.Image.{Image};
ghost use Rattle.qc_journal.specs.History.{IsMade};
ghost use Rattle.qc_machine.specs.Sites.{HasHeaders, ReadsAs};
ghost use Rattle.qc_machine.specs.State.{State};
ghost use Rattle.qc_drill.specs.Accounts.{KeepsAccounts};
ghost use Rattle.qc_drill.specs.Crash.{LeavesOpened};
ghost use Rattle.qc_drill.specs.Headline.{programs_limits, is_of_run, is_unfailed, is_unmade, is_empty_site, Drills};
ghost use Rattle.qc_drill.specs.Inits.{Inits};
ghost use Rattle.qc_drill.specs.Reads.{most_input};
ghost use Rattle.qc_drill.specs.Unopened.{HasNoGroup};
ghost use Rattle.qc_drill.specs.Words.{is_drill, is_init};

use crate::init::init;
use crate::opened::drill;
use qc_protocol::Status;
use qc_site::{Sink, Site, Source};
use std::alloc::Global;

fn is_drill(words: &Vec<String>) -> bool
    ensures { result ≡ is_drill words.now.items }
{
    match words.as_slice() {
        [word] => word.as_str() == "drill",
        _ => false,
    }
}

fn is_init(words: &Vec<String>) -> bool
    ensures { result ≡ is_init words.now.items }
{
    match words.as_slice() {
        [word] => word.as_str() == "init",
        _ => false,
    }
}

/// Carries out the command that the words are, and answers how it ended (docs/RULES.md, "The program").
///
/// `init` makes the site from the catalogue that the source has, and says nothing but the line on a text that is none.
///
/// `drill` opens the site, reads order lines from the source to its end, and writes the reply line of each to the sink.
/// From the opening on, a crash at any moment leaves the history after a front of the lines, with each message that was
/// acknowledged (docs/RULES.md, "What a drill promises").
pub fn run<S: Site, I: Source, O: Sink>(
    alloc: Global,
    words: &Vec<String>,
    site: &mut S,
    source: &mut I,
    sink: &mut O,
) -> Status
    ensures bad_words { (result ≡ Status.BadWords)
        ↔ ((is_drill words.now.items ≡ false) × (is_init words.now.items ≡ false)) }
    ensures untouched { result ≡ Status.BadWords
        → (site.new ≡ site.old) × ((source.new ≡ source.old) × (sink.new ≡ sink.old)) }
    ensures source_fault { result ≡ Status.SourceFault → Rose (I.faults source.old) (I.faults source.new) }
    ensures sink_fault { result ≡ Status.SinkFault → Rose (O.faults sink.old) (O.faults sink.new) }
    ensures site_fault { result ≡ Status.SiteFault → Rose (S.faults site.old) (S.faults site.new) }
    // By the bytes alone, whatever site and sink tell.
    ensures done { result ≡ Status.Done → IfSome (I.left source.old) (λ bytes. I.left source.new ≡ Some []) }
    ensures input_long { result ≡ Status.InputLong → IfSome (I.left source.old) (λ bytes. most_input < length bytes) }
    ensures not_made { S.told → result ≡ Status.NotMade → ¬ HasHeaders (S.shown site.old) }
    ensures no_catalogue { S.told → result ≡ Status.NoCatalogue → HasNoGroup (S.shown site.old) }
    ensures damaged { S.told → result ≡ Status.Damaged → (s : State) → ¬ ReadsAs programs_limits (S.shown site.old) s }
    ensures already_made { S.told → result ≡ Status.AlreadyMade → IsMade (S.shown site.old) }
    ensures kinds { is_of_run result ≡ true }
    // The word init: the text that was read, what was said, the site, and a crash at any moment.
    ensures init { is_init words.now.items ≡ true
        → Inits S.Site result site.old (I.left source.old) (O.contents sink.old) site.new (I.left source.new)
        (O.contents sink.new) }
    // The word drill: what was read, the replies, the site, what is acknowledged, and a crash at any moment.
    ensures drill { is_drill words.now.items ≡ true
        → Drills S.Site result site.old (I.left source.old) (O.contents sink.old) site.new (I.left source.new)
        (O.contents sink.new) }
    ensures any_moment { is_drill words.now.items ≡ true → S.told → (s : State)
        → ReadsAs programs_limits (S.shown site.old) s
        → IfSome (I.left source.old) (λ bytes.
        LeavesOnly S.moment S.left_since site.old site.new (LeavesOpened (S.may_leave site.old) s (lines_of bytes))) }
    // What stands in the end, and whatever a crash leaves at any moment: each message in one place, and the totals.
    ensures accounts { (S.told → KeepsAccounts (S.shown site.new))
        × ((c : Image) → S.left_since site.new (S.moment site.old) c → KeepsAccounts c) }
    ensures unfailed { S.told → (s : State) → ReadsAs programs_limits (S.shown site.old) s
        → is_drill words.now.items ≡ true
        → ¬ Rose (I.faults source.old) (I.faults source.new) → ¬ Rose (O.faults sink.old) (O.faults sink.new)
        → ¬ Rose (S.faults site.old) (S.faults site.new) → is_unfailed result ≡ true }
    ensures unmade { S.told → is_drill words.now.items ≡ true → ¬ HasHeaders (S.shown site.old)
        → is_unmade result ≡ true }
    ensures empty { S.told → is_drill words.now.items ≡ true → HasNoGroup (S.shown site.old)
        → is_empty_site result ≡ true }
{
    if is_drill(words) {
        return drill(alloc, site, source, sink);
    }
    if is_init(words) {
        return init(alloc, site, source, sink);
    }
    Status::BadWords
}
