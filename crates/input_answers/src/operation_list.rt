//! The carriage operations of a file whose lines are cut.
//!
//! The lines are read once more behind a run that ended, since none of their readings was kept.
ghost use Rattle.std.specs.Prelude.{◌<◌, ◌+◌, ◌^◌, length, IfOk, OnOk};
ghost use Rattle.knit_base.specs.Limits.{IsLawfulProfile};
ghost use Rattle.pass_grouping.specs.Listings.{IsOperationListing, next_listing_line};
ghost use Rattle.input_answers.specs.ListingRun.{ListsLine};
ghost use Rattle.input_answers.specs.PassesReport.{AreOperations};

use crate::body::Body;
use crate::plan::Plan;
use knit_base::{Declared, NoMemory, Profile};
use knitout_reader::{nth_line, read_line};
use pass_grouping::{Listing, PassOps};
use std::alloc::Global;

/// The operations of the lines behind the head.
pub fn operations_of_body(alloc: Global, plan: &Plan, body: &Body) -> Result<PassOps, NoMemory>
    ensures { IfOk result (λ ops. AreOperations plan.now.chosen.profile body.now.head.declared body.now.lines ops) }
{
    let profile = &plan.chosen.profile;
    let head = &body.head;
    let count = body.lines.len();
    let mut listing = Listing::start(alloc, head.lines + 1, body.len())?;
    for i in head.lines..count {
        let line = nth_line(&body.lines, i);
        list_line(alloc, line, profile, &head.declared, &mut listing)?;
    }
    Ok(listing.finish())
}

// Reads a line by the whole grammar, and lists it.
fn list_line(
    alloc: Global,
    line: &str,
    profile: &Profile,
    names: &Declared,
    listing: &mut Listing,
) -> Result<(), NoMemory>
    requires short { length line.now < 2 ^ 16 }
    requires limits { IsLawfulProfile profile.now }
    requires listing { IsOperationListing listing.old }
    requires lines { next_listing_line listing.old + 1 < 2 ^ 32 }
    ensures { OnOk result (ListsLine profile.now names.now line.now listing.old listing.new) }
{
    let read = read_line(alloc, line, profile, names)?;
    listing.take(alloc, &read)
}
