// What the command for a sheet prints: the line of words read, its set chosen or its lines read, and every target checked before the first is placed. No public calls.

#![tactic(auto)]

ghost use Rattle.std.specs.Prelude.{◌≤◌, ◌≡◌, Bool, length};
ghost use Rattle.stream_spec.specs.Lines.{lines};
ghost use Rattle.set_pick_spec.specs.Says.{SetAnswers};
ghost use Rattle.sheet_print_spec.specs.Prints.{chosen_for};
ghost use Rattle.sheet_print_inner.specs.Says.{CheckedTargets, SetJudged, SetPrepared, OwnPrepared, Prepared};
ghost use Rattle.sheet_places_inner.specs.Says.{SetPlaces};

use refusal::Refusal;
use sheet_own_inner::RefusedLine;
use sheet_spec::Sheet;

// No text of a target is longer.
const ROOM: usize = 18432;

// Where the rings of a sheet are, and how many: a set in its places; or the lines from a place of the input on.
#[derive(Clone, Copy)]
pub enum Rings {
    Set([u8; 768], usize),
    Own(usize, usize),
}

// A sheet that may be printed, and its rings.
#[derive(Clone, Copy)]
pub struct Job {
    pub sheet: Sheet,
    pub rings: Rings,
}

// What is printed in place of a sheet: a refusal's line; or that of a refused line, by its number.
#[derive(Clone, Copy)]
pub enum Stop {
    Refused(Refusal),
    Wrong(RefusedLine),
}

// The checks of all targets.
fn check_targets(sheet: Sheet, places: &[u8], count: usize) -> Result<(), Refusal>
    requires { SetPlaces places.now sheet.n count }
    ensures { CheckedTargets sheet places.now count result }
{
    let n = sheet.n;
    for j in 0..count {
        let from = 24 * j;
        let to = from + n;
        sheets::check_target(sheet, &places[from..to], j, ROOM)?;
    }
    Ok(())
}

// Whether a set that was picked may be printed.
fn judge(
    sheet: Sheet,
    places: &[u8],
    taken: usize,
    full: bool,
    answer: Result<(), Refusal>,
) -> Result<(), Refusal>
    requires { SetAnswers sheet.n sheet.k sheet.d sheet.wanted (chosen_for sheet) places.now taken full answer }
    ensures { SetJudged sheet places.now taken result }
{
    answer?;
    if taken == 0 {
        return Err(Refusal::Set);
    }
    check_targets(sheet, places, taken)
}

// The set that a sheet asks for.
fn prepare_set(sheet: Sheet) -> Result<Rings, Refusal>
    ensures { SetPrepared sheet result }
{
    let picked = sets::pick_by(
        sheet_source_inner::rule_of(sheet.source),
        sheet.n,
        sheet.k,
        sheet.d,
        sheet.wanted,
    );
    let places = picked.places;
    judge(sheet, &places, picked.taken, picked.full, picked.answer)?;
    Ok(Rings::Set(places, picked.taken))
}

// The rings of the lines of a text, which begins at the place `from` of the input; the lent bytes are as many.
fn prepare_own(sheet: Sheet, text: &[u8], from: usize, ring: &mut [u8]) -> Result<Job, Stop>
    requires { length text.now ≤ length ring.old }
    ensures { OwnPrepared sheet (lines text.now) from result }
{
    let own = sheet_lines_inner::own_sheet(sheet, text);
    match sheet_own_inner::check_lines(own, text, ring) {
        Err(wrong) => Err(Stop::Wrong(wrong)),
        Ok(0) => Err(Stop::Refused(Refusal::Set)),
        Ok(count) => Ok(Job {
            sheet: own,
            rings: Rings::Own(from, count),
        }),
    }
}

// What an input asks for; the lent bytes are as many as its own.
pub fn prepare(s: &[u8], ring: &mut [u8]) -> Result<Job, Stop>
    requires { length s.now ≤ length ring.old }
    ensures { Prepared s.now result }
{
    let e = text_spell_inner::piece_end(s, b'\n');
    let Some(sheet) = sheet_words_inner::read_line(&s[..e]) else {
        return Err(Stop::Refused(Refusal::Line));
    };
    if sheet_source_inner::is_own(sheet.source) {
        let from = sheet_source_inner::behind(s, e);
        return prepare_own(sheet, &s[from..], from, ring);
    }
    if 1 < s.len() - e {
        return Err(Stop::Refused(Refusal::Line));
    }
    match prepare_set(sheet) {
        Err(r) => Err(Stop::Refused(r)),
        Ok(rings) => Ok(Job { sheet, rings }),
    }
}
