// The lines of a listing's rings placed into a lent buffer (01, 'The listing program'). No public calls: crate `listing_pages_inner` makes pages of them.

#![tactic(auto)]

ghost use Rattle.std.specs.Prelude.{◌≤◌, length};
ghost use Rattle.listing_spec.specs.State.{GoodState};
ghost use Rattle.listing_rows_inner.specs.Says.{RowsSay};

use listing_spec::State;
use walk_spec::Outcome;

// No line is longer.
const LINE_ROOM: usize = 107;

// Lines of rings: where the listing stands behind them, the place behind them, and whether there was room for no more.
#[derive(Clone, Copy)]
pub struct Rows {
    pub state: State,
    pub at: usize,
    pub more: bool,
}

// The lines of the rings that follow, while there is room for a whole line.
pub fn fill_rows(s: State, buf: &mut [u8], from: usize) -> Rows
    requires good_state { GoodState s }
    requires from_in_bounds { from ≤ length buf.old }
    ensures { RowsSay s buf.old from result buf.new }
{
    let n = s.n;
    let k = s.k;
    let mut ring = s.ring;
    let mut rings = s.rings;
    let mut moves = s.moves;
    let mut at = from;
    let mut more = true;
    while at + LINE_ROOM <= buf.len() {
        let went = walk_ring_inner::go_on(&mut ring[..n], k);
        let Outcome::Moved(m) = went.outcome else {
            more = false;
            break;
        };
        at = text_lines_inner::place_ring(buf, at, &ring[..n], m, went.period);
        rings += 1;
        moves += m;
    }
    Rows {
        state: State {
            k,
            n,
            ring,
            rings,
            moves,
        },
        at,
        more,
    }
}
