// The gray of a shade, 0 black and 255 white. No public calls.

#![tactic(auto)]

ghost use Rattle.std.specs.Prelude.{◌≤◌, ◌<◌, ◌≡◌};
ghost use Rattle.picture_spec.specs.Gray.{gray};
ghost use Rattle.picture_gray_inner.specs.Says.{Managed, Levels};

use picture_spec::Tone;

// The grays of a colour-managed print, a row of 16 for each k from 2 on.
const GRAYS: [usize; 240] = [
    0, 255, 0, 0, 0, 0, 0, 0, 0, 0, 0, 0, 0, 0, 0, 0, 0, 188, 255, 0, 0, 0, 0, 0, 0, 0, 0, 0, 0, 0,
    0, 0, 0, 156, 213, 255, 0, 0, 0, 0, 0, 0, 0, 0, 0, 0, 0, 0, 0, 137, 188, 225, 255, 0, 0, 0, 0,
    0, 0, 0, 0, 0, 0, 0, 0, 124, 170, 203, 231, 255, 0, 0, 0, 0, 0, 0, 0, 0, 0, 0, 0, 113, 156,
    188, 213, 235, 255, 0, 0, 0, 0, 0, 0, 0, 0, 0, 0, 106, 146, 175, 199, 220, 238, 255, 0, 0, 0,
    0, 0, 0, 0, 0, 0, 99, 137, 165, 188, 207, 225, 240, 255, 0, 0, 0, 0, 0, 0, 0, 0, 94, 130, 156,
    178, 197, 213, 228, 242, 255, 0, 0, 0, 0, 0, 0, 0, 89, 124, 149, 170, 188, 203, 218, 231, 243,
    255, 0, 0, 0, 0, 0, 0, 85, 118, 143, 162, 180, 195, 209, 222, 233, 245, 255, 0, 0, 0, 0, 0, 82,
    113, 137, 156, 173, 188, 201, 213, 225, 235, 245, 255, 0, 0, 0, 0, 78, 109, 132, 151, 167, 181,
    194, 206, 217, 227, 237, 246, 255, 0, 0, 0, 76, 106, 128, 146, 161, 175, 188, 199, 210, 220,
    229, 238, 247, 255, 0, 0, 73, 102, 124, 141, 156, 170, 182, 193, 203, 213, 222, 231, 239, 247,
    255,
];

// By the table.
fn managed_gray(k: usize, s: usize) -> usize
    requires { (2 ≤ k) × (k ≤ 16) × (s < k) }
    ensures { Managed k s result }
{
    let at = 16 * (k - 2) + s;
    GRAYS[at]
}

// In proportion.
fn level_gray(k: usize, s: usize) -> usize
    requires { (2 ≤ k) × (k ≤ 16) × (s < k) }
    ensures { Levels k s result }
{
    let top = k - 1;
    (510 * s + top) / (2 * top)
}

// A shade's gray.
pub fn gray_of(tone: Tone, k: usize, s: u8) -> usize
    requires { (2 ≤ k) × (k ≤ 16) × (s < k) }
    ensures { result ≡ gray tone k s }
{
    let wide = s as usize;
    match tone {
        Tone::Managed => managed_gray(k, wide),
        Tone::Levels => level_gray(k, wide),
    }
}
