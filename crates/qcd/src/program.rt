// What the program does with its words, over any sites and any streams.
ghost use Rattle.std.specs.Prelude.{◌≡◌, ◌≢◌, ◌↔◌, length, drop, true, false};
ghost use Rattle.std.specs.Process.{exit_status};
ghost use Rattle.qc_protocol.specs.Statuses.{status_code};
ghost use Rattle.qc_site.specs.Causes.{Rose};
ghost use Rattle.qc_drill.specs.Words.{is_drill as is_drill_word, is_init as is_init_word};
ghost use Rattle.qcd.specs.Made.{status_made, status_unopened};
ghost use Rattle.qcd.specs.Requests.{is_command as is_command_of, is_request, folder_of};
ghost use Rattle.qcd.specs.Runs.{DrillsOverSample, Ends, RunsMemory, RunsFolder};

use crate::sites::Sites;
use qc_catalogue::sample;
use qc_drill::run;
use qc_hub::{CreateError, Hub};
use qc_protocol::Status;
use qc_realsite::OpenError;
use qc_site::{Sink, Site, Source};
use std::alloc::Global;
use std::process::ExitCode;

pub(crate) fn exit_code(status: Status) -> ExitCode
    ensures { exit_status result ≡ status_code status }
{
    ExitCode::from(status.code())
}

fn is_drill(words: &Vec<String>) -> bool
    ensures { result ≡ is_drill_word words.now.items }
{
    match words.as_slice() {
        [word] => word.as_str() == "drill",
        _ => false,
    }
}

fn is_init(words: &Vec<String>) -> bool
    ensures { result ≡ is_init_word words.now.items }
{
    match words.as_slice() {
        [word] => word.as_str() == "init",
        _ => false,
    }
}

fn is_command(words: &Vec<String>) -> bool
    ensures { result ≡ is_command_of words.now.items }
{
    is_drill(words) || is_init(words)
}

// The status where no site could be made.
fn status_of(error: CreateError) -> Status
    ensures { result ≡ status_made error }
{
    match error {
        CreateError::SiteFault => Status::SiteFault,
        CreateError::AlreadyMade => Status::AlreadyMade,
        CreateError::BadCatalogue(_) => Status::BadCatalogue,
        CreateError::NoMemory => Status::NoMemory,
    }
}

// The status where no site could be opened.
fn status_where_unopened(error: OpenError) -> Status
    ensures { result ≡ status_unopened error }
{
    match error {
        OpenError::Taken | OpenError::Failed => Status::SiteFault,
        OpenError::NoMemory => Status::NoMemory,
    }
}

// Carries out the words over a site that is first made from the sample catalogue.
fn run_over_sample<S: Site, I: Source, O: Sink>(
    alloc: Global,
    words: &Vec<String>,
    site: &mut S,
    source: &mut I,
    sink: &mut O,
) -> Status
    requires { is_drill_word words.now.items ≡ true }
    ensures good_words { result ≢ Status.BadWords }
    ensures ran { DrillsOverSample S.Site site.old (I.left source.old) (O.contents sink.old) site.new
        (I.left source.new) (O.contents sink.new) result }
    ensures source_fault { result ≡ Status.SourceFault → Rose (I.faults source.old) (I.faults source.new) }
    ensures sink_fault { result ≡ Status.SinkFault → Rose (O.faults sink.old) (O.faults sink.new) }
    ensures site_fault { result ≡ Status.SiteFault → Rose (S.faults site.old) (S.faults site.new) }
{
    match Hub::create(alloc, site, sample().as_bytes()) {
        Ok(()) => run(alloc, words, site, source, sink),
        Err(error) => status_of(error),
    }
}

// Carries out the words over a site in memory. A drill has one that is made from the sample catalogue.
fn run_in_memory<M: Site + Drop, F, P: Sites<M, F>, I: Source, O: Sink>(
    alloc: Global,
    words: &Vec<String>,
    sites: &mut P,
    source: &mut I,
    sink: &mut O,
) -> Status
    ensures bad_words { (result ≡ Status.BadWords) ↔ (is_command_of words.now.items ≡ false) }
    ensures untouched { result ≡ Status.BadWords
        → (sites.new ≡ sites.old) × ((source.new ≡ source.old) × (sink.new ≡ sink.old)) }
    ensures source_fault { result ≡ Status.SourceFault → Rose (I.faults source.old) (I.faults source.new) }
    ensures sink_fault { result ≡ Status.SinkFault → Rose (O.faults sink.old) (O.faults sink.new) }
    ensures ran { RunsMemory M.Site (λ answer. P.makes sites.old answer sites.new) words.now.items
        (I.left source.old) (O.contents sink.old) (I.left source.new) (O.contents sink.new) result }
{
    if !is_command(words) {
        return Status::BadWords;
    }
    let mut site = match sites.make() {
        Ok(site) => site,
        Err(error) => return status_where_unopened(error),
    };
    if is_drill(words) {
        return run_over_sample(alloc, words, &mut site, source, sink);
    }
    run(alloc, words, &mut site, source, sink)
}

// Carries out the words over the site in a folder.
fn run_in_folder<M, F: Site + Drop, P: Sites<M, F>, I: Source, O: Sink>(
    alloc: Global,
    folder: &str,
    words: &Vec<String>,
    sites: &mut P,
    source: &mut I,
    sink: &mut O,
) -> Status
    ensures bad_words { (result ≡ Status.BadWords) ↔ (is_command_of words.now.items ≡ false) }
    ensures untouched { result ≡ Status.BadWords
        → (sites.new ≡ sites.old) × ((source.new ≡ source.old) × (sink.new ≡ sink.old)) }
    ensures source_fault { result ≡ Status.SourceFault → Rose (I.faults source.old) (I.faults source.new) }
    ensures sink_fault { result ≡ Status.SinkFault → Rose (O.faults sink.old) (O.faults sink.new) }
    ensures ran { RunsFolder F.Site (λ answer. P.opens sites.old folder.now answer sites.new) words.now.items
        (I.left source.old) (O.contents sink.old) (I.left source.new) (O.contents sink.new) result }
{
    if !is_command(words) {
        return Status::BadWords;
    }
    match sites.open(folder) {
        Ok(mut site) => run(alloc, words, &mut site, source, sink),
        Err(error) => status_where_unopened(error),
    }
}

// Carries out the words: a command over a site in memory, or behind the path of a folder over the site there.
pub(crate) fn run_words<M: Site + Drop, F: Site + Drop, P: Sites<M, F>, I: Source, O: Sink>(
    alloc: Global,
    mut words: Vec<String>,
    sites: &mut P,
    source: &mut I,
    sink: &mut O,
) -> Status
    ensures bad_words { (result ≡ Status.BadWords) ↔ (is_request words.items ≡ false) }
    ensures untouched { result ≡ Status.BadWords
        → (sites.new ≡ sites.old) × ((source.new ≡ source.old) × (sink.new ≡ sink.old)) }
    ensures source_fault { result ≡ Status.SourceFault → Rose (I.faults source.old) (I.faults source.new) }
    ensures sink_fault { result ≡ Status.SinkFault → Rose (O.faults sink.old) (O.faults sink.new) }
    ensures memory { length words.items ≡ 1
        → RunsMemory M.Site (λ answer. P.makes sites.old answer sites.new) words.items
        (I.left source.old) (O.contents sink.old) (I.left source.new) (O.contents sink.new) result }
    ensures folder { length words.items ≡ 2
        → RunsFolder F.Site (λ answer. P.opens sites.old (folder_of words.items) answer sites.new)
        (drop 1 words.items) (I.left source.old) (O.contents sink.old) (I.left source.new) (O.contents sink.new)
        result }
{
    if words.len() == 1 {
        return run_in_memory(alloc, &words, sites, source, sink);
    }
    if words.len() != 2 {
        return Status::BadWords;
    }
    let folder = words.remove(0);
    run_in_folder(alloc, folder.as_str(), &words, sites, source, sink)
}

/// Carries out the words of a command line, and gives the exit status.
///
/// One word is a command over a site in memory, which holds nothing yet; a drill has one that was made from the sample
/// catalogue. Before it may stand the path of a folder: then it is the site there. Bad words are status 1, and nothing
/// is opened or made for them (docs/RULES.md, "The program").
pub(crate) fn carry_out<M: Site + Drop, F: Site + Drop, P: Sites<M, F>, I: Source, O: Sink>(
    alloc: Global,
    words: Vec<String>,
    sites: &mut P,
    source: &mut I,
    sink: &mut O,
) -> ExitCode
    ensures bad_words { (exit_status result ≡ 1) ↔ (is_request words.items ≡ false) }
    ensures untouched { exit_status result ≡ 1
        → (sites.new ≡ sites.old) × ((source.new ≡ source.old) × (sink.new ≡ sink.old)) }
    ensures source_fault { exit_status result ≡ 2 → Rose (I.faults source.old) (I.faults source.new) }
    ensures sink_fault { exit_status result ≡ 3 → Rose (O.faults sink.old) (O.faults sink.new) }
    // It ends with the status of the run that was made.
    ensures memory { length words.items ≡ 1
        → Ends (RunsMemory M.Site (λ answer. P.makes sites.old answer sites.new) words.items
        (I.left source.old) (O.contents sink.old) (I.left source.new) (O.contents sink.new)) (exit_status result) }
    ensures folder { length words.items ≡ 2
        → Ends (RunsFolder F.Site (λ answer. P.opens sites.old (folder_of words.items) answer sites.new)
        (drop 1 words.items) (I.left source.old) (O.contents sink.old) (I.left source.new) (O.contents sink.new))
        (exit_status result) }
{
    exit_code(run_words(alloc, words, sites, source, sink))
}
