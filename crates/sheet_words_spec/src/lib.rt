// What the words of the command for a sheet mean. No functions.

#![tactic(auto)]

use sheet_spec::Sheet;

// What a word is: a number of at most three digits, one of four names, or another.
#[derive(Clone, Copy)]
pub enum Word {
    Number(usize),
    Plain,
    Levels,
    Size,
    Columns,
    Other,
}

// What may stand next: the numbers in their order, a wish, the number that a wish goes on with; or nothing, since a word was wrong.
#[derive(Clone, Copy)]
pub enum Awaits {
    First,
    Second,
    Third,
    Fourth,
    Wish,
    Size,
    Columns,
    Wrong,
}

// What the words so far ask for, and what may stand next. Columns that were not asked for are 0: as many as fit on a page.
#[derive(Clone, Copy)]
pub struct Asked {
    pub sheet: Sheet,
    pub awaits: Awaits,
}
