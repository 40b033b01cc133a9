// What the calls by reflectances are given and answer (02, i). The calls are `density`'s.

#![tactic(auto)]

// The reference card: the reflectances of its dark and of its light field.
#[derive(Clone, Copy)]
pub struct Card {
    pub dark: f32,
    pub light: f32,
}

// What one sector's reflectance tells: its shade, or that it lies below 0 or above 1, with the value itself, or that it is not a number.
#[derive(Clone, Copy)]
pub enum Sector {
    Shade(u8),
    Outside(f32),
    NotANumber,
}
