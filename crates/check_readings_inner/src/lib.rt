// The checks of one reading, of two, and of a reading with an output, each refusal in the order of document 01.
// By `match` and not by `?`, which takes more of the stack than the bounds that `.ci/stack` holds (02, request e).

#![tactic(auto)]

ghost use Rattle.refusal.specs.Order.{CheckSays};
ghost use Rattle.refusal.specs.Calls.{one_reading, two_readings, with_room};

use refusal::Refusal;

// One reading: 1, 2, 3.
pub fn check_reading(s: &[u8], k: usize) -> Result<(), Refusal>
    ensures { CheckSays (one_reading s.now k) result }
{
    let n = s.len();
    match check_numbers_inner::check_numbers(n, n, k) {
        Err(r) => Err(r),
        Ok(()) => {
            let at = check_numbers_inner::first_bad(s, k);
            if at < n {
                return Err(Refusal::Sector(at));
            }
            Ok(())
        }
    }
}

// Two readings: 1 (first reading), 10, 2, 3; the second reading's sectors count on from n.
pub fn check_pair(a: &[u8], b: &[u8], k: usize) -> Result<(), Refusal>
    ensures { CheckSays (two_readings a.now b.now k) result }
{
    let n = a.len();
    match check_numbers_inner::check_numbers(n, b.len(), k) {
        Err(r) => Err(r),
        Ok(()) => {
            let i = check_numbers_inner::first_bad(a, k);
            if i < n {
                return Err(Refusal::Sector(i));
            }
            let j = check_numbers_inner::first_bad(b, k);
            if j < n {
                return Err(Refusal::Sector(n + j));
            }
            Ok(())
        }
    }
}

// One reading and an output of `room` places: 1, 2, 3, 4.
pub fn check_room(s: &[u8], k: usize, room: usize) -> Result<(), Refusal>
    ensures { CheckSays (with_room s.now k room) result }
{
    match check_reading(s, k) {
        Err(r) => Err(r),
        Ok(()) => {
            if room != s.len() {
                return Err(Refusal::Room);
            }
            Ok(())
        }
    }
}
