// The bytes behind the head of a packed record, whose numbers are good: 3, 17, 9. No public calls.

#![tactic(auto)]

ghost use Rattle.std.specs.Prelude.{◌≡◌, ◌+◌, length};
ghost use Rattle.words.specs.Readings.{Sized, Shaded};
ghost use Rattle.record_spec.specs.declared.Kind.TheVariants.{Packed};
ghost use Rattle.record_spec.specs.Layout.{body_length, shown};
ghost use Rattle.record_body_inner.specs.Steps.{Held, BodySays};

use record_body_inner::Looked;
use record_spec::HEAD;
use refusal::Refusal;

// The sectors are unpacked, and then checked.
pub fn check_packed_body(bytes: &[u8], start: usize, n: usize, k: usize) -> Result<(), Refusal>
    requires { Held (start + (4 + length bytes.now)) × Sized n × Shaded k × (length bytes.now ≡ body_length Packed n k) }
    ensures { BodySays Packed n k bytes.now start result }
{
    let mut room = [0u8; 64];
    let sectors = &mut room[..n];
    packing_unpack_inner::unpack_into(bytes, packing_bits_inner::width_of(k), sectors);
    check_unpacked(sectors, bytes, start, k)
}

// The sectors that the bytes hold are looked at as those of a front record are; the place of a sector is that of the byte that holds its first bit.
fn check_unpacked(sectors: &[u8], bytes: &[u8], start: usize, k: usize) -> Result<(), Refusal>
    requires { Held (start + (4 + length bytes.now)) × Sized (length sectors.now) × Shaded k × (length bytes.now ≡ body_length Packed (length sectors.now) k)
        × (sectors.now ≡ shown Packed (length sectors.now) k bytes.now) }
    ensures { BodySays Packed (length sectors.now) k bytes.now start result }
{
    let b = packing_bits_inner::width_of(k);
    let looked = record_body_inner::look(sectors, k);
    if let Looked::NoShade(i) = looked {
        return Err(Refusal::Sector(start + HEAD + packing_bits_inner::byte_of(b, i)));
    }
    if !packing_unpack_inner::padding_clear(bytes, b, sectors.len()) {
        return Err(Refusal::Padding(start + HEAD + (bytes.len() - 1)));
    }
    if let Looked::NotHome(j) = looked {
        return Err(Refusal::NotHome(start + HEAD + packing_bits_inner::byte_of(b, j)));
    }
    Ok(())
}
