// Sectors unpacked from bytes (02, request k), and whether the unused bits are 0. No public calls: the record reader checks what these ask for.

#![tactic(auto)]

ghost use Rattle.std.specs.Prelude.{◌≡◌, ◌≤◌, length};
ghost use Rattle.packing_spec.specs.Packing.{packed_length, unpacked, clear_padding};

// Unpacks as many sectors as `out` has places. `rest` holds the bits that are read and not yet written, `held` of them.
pub fn unpack_into(bytes: &[u8], width: usize, out: &mut [u8])
    requires { (width ≤ 8) × (length bytes.now ≡ packed_length width (length out.old)) }
    ensures { out.new ≡ unpacked width (length out.old) bytes.now }
{
    let n = out.len();
    let mut i = 0;
    let mut j = 0;
    let mut held = 0;
    let mut rest = 0;
    while j < n {
        if held < width {
            rest = packing_bits_inner::appended(rest, 8, bytes[i]);
            held += 8;
            i += 1;
            continue;
        }
        held -= width;
        out[j] = packing_bits_inner::upper(rest, held);
        rest = packing_bits_inner::lower(rest, held);
        j += 1;
    }
}

// Whether the unused low bits of the last byte are 0, where n sectors are packed.
pub fn padding_clear(bytes: &[u8], width: usize, n: usize) -> bool
    requires { (1 ≤ width) × (width ≤ 8) × (1 ≤ n) × (n ≤ 64) × (length bytes.now ≡ packed_length width n) }
    ensures { result ≡ clear_padding width n bytes.now }
{
    let l = bytes.len();
    let spare = 8 * l - width * n;
    packing_bits_inner::lower(bytes[l - 1] as usize, spare) == 0
}
