// What drawing a target is asked. The call is `pictures`'s, and answers how many bytes of the buffer the picture has, or a refusal. No functions.

#![tactic(auto)]

// Which gray stands for a shade: the one that a colour-managed print brings to the shade's reflectance, or levels in proportion to the shades.
#[derive(Clone, Copy)]
pub enum Tone {
    Managed,
    Levels,
}
