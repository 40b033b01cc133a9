// Sectors packed into bytes (02, request k). No public call: the writer checks what this asks for.

#![tactic(auto)]

ghost use Rattle.std.specs.Prelude.{◌≡◌, ◌≤◌, length};
ghost use Rattle.packing_spec.specs.Packing.{BitsFit, packed_length, packed};

// Packs the sectors into `out`, which is as long as the packed bytes: the first in the highest bits. `rest` holds the bits that fill no byte yet, `held` of them.
pub fn pack_into(sectors: &[u8], width: usize, out: &mut [u8])
    requires { (width ≤ 8) × BitsFit width sectors.now × (length out.old ≡ packed_length width (length sectors.now)) }
    ensures { out.new ≡ packed width sectors.now }
{
    let n = sectors.len();
    let mut i = 0;
    let mut j = 0;
    let mut held = 0;
    let mut rest = 0;
    while i < n {
        rest = packing_bits_inner::appended(rest, width, sectors[i]);
        held += width;
        i += 1;
        if held < 8 {
            continue;
        }
        held -= 8;
        out[j] = packing_bits_inner::upper(rest, held);
        rest = packing_bits_inner::lower(rest, held);
        j += 1;
    }
    if 0 < held {
        out[j] = packing_bits_inner::highest(rest, held);
    }
}
