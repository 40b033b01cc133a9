// What a line of the desk asks, and what it prints, as definitions. No functions.

#![tactic(auto)]

// A step from a reading, to the next ring of a kind.
#[derive(Clone, Copy)]
pub enum Step {
    Necklace,
    Lyndon,
    Prenecklace,
    Bracelet,
}

// A question about one reading.
#[derive(Clone, Copy)]
pub enum About {
    Class,
    Home,
    Even,
    Place,
    Step(Step),
}

// A question about two readings.
#[derive(Clone, Copy)]
pub enum Both {
    Same,
    Apart,
}

// What a line asks: its first word tells.
#[derive(Clone, Copy)]
pub enum Verb {
    About(About),
    Both(Both),
    Many,
    Stock,
    Strip,
    Sight,
    First,
    After,
    Shade,
}
