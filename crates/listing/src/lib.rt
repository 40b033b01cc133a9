// The listing program's calls (01, 'The listing program'): what a line asks for, and its output page after page.

#![tactic(auto)]

ghost use Rattle.std.specs.Prelude.{◌≤◌, ◌≡◌, length};
ghost use Rattle.plan_spec.specs.Plan.{PlanSays};
ghost use Rattle.listing_spec.specs.Prints.{most_printed};
ghost use Rattle.listing_spec.specs.Paging.{row_room, FirstPage, Next, Paged};
ghost use Rattle.listing.specs.Says.{empty_page, RefusedPageSays};

use limits::MOST_LISTED;
use listing_spec::{Page, State};
use refusal::Refusal;

// No line is longer, nor are the first two together.
const LINE_ROOM: usize = 107;

// What the listing program's line asks for.
pub fn plan(line: &[u8]) -> Result<(usize, usize), Refusal>
    ensures { PlanSays most_printed line.now result }
{
    plan::plan_line(line, MOST_LISTED)
}

// ---- pages

// A page of no bytes, behind which nothing follows.
fn empty_page() -> Page
    ensures { result ≡ empty_page }
{
    Page {
        length: 0,
        state: listing_pages_inner::empty_state(),
    }
}

// A refusal's page: its line alone.
fn refused_page(r: Refusal, buf: &mut [u8]) -> Page
    requires { row_room ≤ length buf.old }
    ensures { RefusedPageSays r buf.old result buf.new }
{
    let number = refusal::number(r);
    let end = text_lines_inner::place_refused(buf, 0, number);
    Page {
        length: end,
        state: listing_pages_inner::empty_state(),
    }
}

// The first page of the output for a line. Where the buffer has no room for a line it is a page of no bytes.
pub fn first_page(line: &[u8], buf: &mut [u8]) -> Page
    ensures { Paged (FirstPage line.now (length buf.old)) buf.old result buf.new }
{
    if buf.len() < LINE_ROOM {
        return empty_page();
    }
    match plan(line) {
        Err(r) => refused_page(r, buf),
        Ok((k, n)) => listing_pages_inner::open_page(k, n, buf),
    }
}

// The page that follows from the state behind another. From a state that is not good nothing follows.
pub fn next_page(s: State, buf: &mut [u8]) -> Page
    ensures { Paged (Next s (length buf.old)) buf.old result buf.new }
{
    if !listing_states_inner::is_good(s) {
        return empty_page();
    }
    listing_pages_inner::fill_page(s, buf, 0)
}
