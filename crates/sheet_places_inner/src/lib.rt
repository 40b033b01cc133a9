// The rings of a set in the places where its choice laid them: the target of one placed into a lent buffer. No public calls.

#![tactic(auto)]

ghost use Rattle.std.specs.Prelude.{◌<◌, ◌≤◌, Bool, length};
ghost use Rattle.set_spec.specs.Places.{set_in};
ghost use Rattle.refusal.specs.Order.{Passed};
ghost use Rattle.sheet_spec.specs.Says.{target_room};
ghost use Rattle.sheet_print_spec.specs.Prints.{target_order};
ghost use Rattle.sheet_places_inner.specs.Says.{SetPlaces, PlacedAt};

use sheet_spec::Sheet;

// Target i of a sheet that is ready, at the beginning of the buffer, and how long that is.
pub fn place_step(sheet: Sheet, places: &[u8], count: usize, i: usize, buf: &mut [u8]) -> usize
    requires set_places { SetPlaces places.now sheet.n count }
    requires i_lt_count { (i < count) × (target_room ≤ length buf.old) }
    requires passed { Passed (target_order sheet (set_in sheet.n places.now count) i) }
    ensures { PlacedAt sheet places.now count i buf.old result buf.new }
{
    let n = sheet.n;
    let from = 24 * i;
    let to = from + n;
    match sheets::target(sheet, &places[from..to], i, i + 1 == count, buf) {
        Ok(m) => m,
        Err(_) => 0,
    }
}
