// Where a target of a sheet stands on its page. No public calls.

#![tactic(auto)]

ghost use Rattle.std.specs.Prelude.{◌≤◌, ◌<◌, ◌≡◌};
ghost use Rattle.sheet_spec.specs.Layout.{per_page, across, down, FitsPage};

// How many targets a page has.
pub fn per_page(size: usize, columns: usize) -> usize
    requires { FitsPage size columns }
    ensures { (result ≡ per_page size columns) × (0 < result) × (result ≤ 577500) }
{
    let rows = 2750 / (10 * size + 140);
    columns * rows
}

// The middle of the target in cell j.
pub fn across_of(size: usize, columns: usize, j: usize) -> usize
    requires { FitsPage size columns × (j < 1000000) }
    ensures { result ≡ across size columns j }
{
    let pitch = 10 * size + 140;
    let left = (2100 - columns * pitch) / 2;
    left + (j % columns) * pitch + (5 * size + 70)
}

pub fn down_of(size: usize, columns: usize, j: usize) -> usize
    requires { FitsPage size columns × (j < 1000000) }
    ensures { result ≡ down size columns j }
{
    let pitch = 10 * size + 140;
    100 + (j / columns) * pitch + (5 * size + 30)
}
