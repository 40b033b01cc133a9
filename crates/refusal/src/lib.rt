// Refusals: their numbers and places. The checks that give them stand above, in `check_numbers_inner`, `check_readings_inner`, `check_counts_inner` and `walk_checks_inner`.

#![tactic(auto)]

ghost use Rattle.std.specs.Prelude.{◌≡◌};
ghost use Rattle.refusal.specs.Numbers.{number_of, place_of};

// a case for each row of the table; a case whose place is always 0 carries none
#[derive(Clone, Copy)]
pub enum Refusal {
    Length(usize),
    Shades(usize),
    Sector(usize),
    Room,
    OffWalk(usize),
    Counts,
    Cut(usize),
    Mark(usize),
    NotHome(usize),
    Pair,
    Line,
    TooMany,
    Set,
    Card,
    Unreadable(usize),
    Retired(usize),
    Padding(usize),
}

pub fn number(r: Refusal) -> usize
    ensures { result ≡ number_of r }
{
    match r {
        Refusal::Length(_) => 1,
        Refusal::Shades(_) => 2,
        Refusal::Sector(_) => 3,
        Refusal::Room => 4,
        Refusal::OffWalk(_) => 5,
        Refusal::Counts => 6,
        Refusal::Cut(_) => 7,
        Refusal::Mark(_) => 8,
        Refusal::NotHome(_) => 9,
        Refusal::Pair => 10,
        Refusal::Line => 11,
        Refusal::TooMany => 12,
        Refusal::Set => 13,
        Refusal::Card => 14,
        Refusal::Unreadable(_) => 15,
        Refusal::Retired(_) => 16,
        Refusal::Padding(_) => 17,
    }
}

pub fn place(r: Refusal) -> usize
    ensures { result ≡ place_of r }
{
    match r {
        Refusal::Length(p) => p,
        Refusal::Shades(p) => p,
        Refusal::Sector(p) => p,
        Refusal::Room => 0,
        Refusal::OffWalk(p) => p,
        Refusal::Counts => 0,
        Refusal::Cut(p) => p,
        Refusal::Mark(p) => p,
        Refusal::NotHome(p) => p,
        Refusal::Pair => 0,
        Refusal::Line => 0,
        Refusal::TooMany => 0,
        Refusal::Set => 0,
        Refusal::Card => 0,
        Refusal::Unreadable(p) => p,
        Refusal::Retired(p) => p,
        Refusal::Padding(p) => p,
    }
}
