// The steps of the listing program that fill no page: the page behind a read that failed, and whether another page follows. No public calls.

#![tactic(auto)]

ghost use Rattle.std.specs.Prelude.{◌≡◌};
ghost use Rattle.listing_spec.specs.State.{empty_state};
ghost use Rattle.listing_steps_inner.specs.Says.{goes_on};

use listing_spec::Page;

// A page of no bytes, behind which nothing follows.
pub fn no_page() -> Page
    ensures { (result.length ≡ 0) × (result.state ≡ empty_state) }
{
    let state = listing_pages_inner::empty_state();
    Page { length: 0, state }
}

// Whether another page follows: where this one has bytes, and they were written.
pub fn goes_on(wrote: bool, length: usize) -> bool
    ensures { result ≡ goes_on wrote length }
{
    wrote && 0 < length
}
