// A site whose messages to `Order` change nothing outside.
use qc_catalogue::sample;
use qc_drill_tests::{joined, status_of};
use qc_hub::Hub;
use qc_memsite::MemSite;
use qc_protocol::Status;
use std::alloc::Global;

const CHANGE_IN_PLACE: &str = "out till[\"drawer\"] += qty\n";

const CHANGE_IN_NOTIFY: &str = "out post[\"letters\"] += n";

/// A site that was made from the sample catalogue without the changes outside in the methods of `Order`. The error is a
/// fault of the site, want of memory, or that the sample has no such changes.
pub fn plain_site(alloc: Global) -> Result<MemSite, Status> {
    let Some((front, behind)) = sample().split_once(CHANGE_IN_PLACE) else {
        return Err(Status::BadCatalogue);
    };
    let Some((middle, end)) = behind.split_once(CHANGE_IN_NOTIFY) else {
        return Err(Status::BadCatalogue);
    };
    let parts = [front.as_bytes(), middle.as_bytes(), end.as_bytes()];
    let text = joined(alloc, &parts).map_err(|_| Status::NoMemory)?;
    let mut site = MemSite::make(alloc).map_err(|_| Status::NoMemory)?;
    match Hub::create(alloc, &mut site, text.as_slice()) {
        Ok(()) => Ok(site),
        Err(error) => Err(status_of(&error)),
    }
}
