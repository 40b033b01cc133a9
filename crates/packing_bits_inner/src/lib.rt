// The numbers of the packed stored form (02, request k): how many bits a sector takes, how many bytes n sectors take, and in which byte a sector starts; and the steps
// on the bits that are held between two bytes. No public calls: the record reader and the writer check what these ask for.

#![tactic(auto)]

ghost use Rattle.std.specs.Prelude.{◌≡◌, ◌≤◌, ◌<◌, ◌+◌, ◌-◌, ◌*◌, ◌/◌, ◌%◌, ◌^◌};
ghost use Rattle.words.specs.Readings.{Shaded};
ghost use Rattle.packing_spec.specs.Width.{width};
ghost use Rattle.packing_spec.specs.Packing.{packed_length, byte_of};

// How many bits the highest of k shades needs, which is at least one and at most four: eight less the leading zeros of k - 1 as a u8.
pub fn width_of(k: usize) -> usize
    requires { Shaded k }
    ensures width { result ≡ width k }
    ensures narrow { (1 ≤ result) × (result ≤ 4) }
{
    let top = (k - 1) as u8;
    (8 - u8::leading_zeros(top)) as usize
}

// How many bytes n sectors take.
pub fn packed_length(width: usize, n: usize) -> usize
    requires { (width ≤ 8) × (n ≤ 64) }
    ensures { result ≡ packed_length width n }
{
    (width * n + 7) / 8
}

// The byte that holds the first bit of sector i.
pub fn byte_of(width: usize, i: usize) -> usize
    requires { (width ≤ 8) × (i ≤ 64) }
    ensures { result ≡ byte_of width i }
{
    width * i / 8
}

// The bits of x, so many, behind those of `rest`.
pub fn appended(rest: usize, width: usize, x: u8) -> usize
    requires { (rest < 256) × (width ≤ 8) }
    ensures { result ≡ rest * 2 ^ width + x }
{
    (rest << width) + x as usize
}

// The bits of `rest` above the lowest `held`; they fit into a byte.
pub fn upper(rest: usize, held: usize) -> u8
    requires { (held < 8) × (rest / 2 ^ held < 256) }
    ensures { result ≡ rest / 2 ^ held }
{
    (rest >> held) as u8
}

// The lowest `held` bits of `rest`.
pub fn lower(rest: usize, held: usize) -> usize
    requires { held < 8 }
    ensures { result ≡ rest % 2 ^ held }
{
    rest % (1 << held)
}

// The bits of `rest`, `held` of them, as the highest of a byte; the others are 0.
pub fn highest(rest: usize, held: usize) -> u8
    requires { (held ≤ 8) × (rest < 2 ^ held) }
    ensures { result ≡ rest * 2 ^ (8 - held) }
{
    (rest << (8 - held)) as u8
}
