// The lines of a listing placed into a lent buffer (01, 'The listing program'). No public calls: crate `listing` checks what `open_page` and `fill_page` ask for.

#![tactic(auto)]

ghost use Rattle.std.specs.Prelude.{◌≤◌, ◌≡◌, length};
ghost use Rattle.limits_spec.specs.Limits.{Listable};
ghost use Rattle.listing_spec.specs.Prints.{most_printed};
ghost use Rattle.listing_spec.specs.State.{GoodState, empty_state};
ghost use Rattle.listing_spec.specs.Paging.{row_room};
ghost use Rattle.listing_pages_inner.specs.Says.{FillSays, OpenSays};

use listing_spec::{Page, State};

// The state from which nothing follows.
pub fn empty_state() -> State
    ensures { result ≡ empty_state }
{
    State {
        k: 0,
        n: 0,
        ring: [0u8; 64],
        rings: 0,
        moves: 0,
    }
}

// The lines of the rings that follow from `from` on, and behind the last ring's the last line, for which there is room where there was room for a ring's.
pub fn fill_page(s: State, buf: &mut [u8], from: usize) -> Page
    requires good_state { GoodState s }
    requires from_in_bounds { from ≤ length buf.old }
    ensures { FillSays s buf.old from result buf.new }
{
    let rows = listing_rows_inner::fill_rows(s, buf, from);
    let state = rows.state;
    if rows.more {
        return Page {
            length: rows.at,
            state,
        };
    }
    let end = text_lines_inner::place_last(buf, rows.at, state.rings, state.moves);
    Page {
        length: end,
        state: empty_state(),
    }
}

// The first page: the first line, the all-zero ring's, and those that follow.
pub fn open_page(k: usize, n: usize, buf: &mut [u8]) -> Page
    requires listable { Listable most_printed k n }
    requires row_room_in_bounds { row_room ≤ length buf.old }
    ensures { OpenSays k n buf.old result buf.new }
{
    let ring = [0u8; 64];
    let first = text_lines_inner::place_first(buf, 0, k, n);
    let at = text_lines_inner::place_zero_ring(buf, first, &ring[..n]);
    let start = State {
        k,
        n,
        ring,
        rings: 1,
        moves: 0,
    };
    fill_page(start, buf, at)
}
