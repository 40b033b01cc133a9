// Bytes copied to the beginning of others, and some of them reversed where they stand, by the toolchain's library. No public calls: the callers check what this asks for.

#![tactic(auto)]

ghost use Rattle.std.specs.Prelude.{◌≡◌, ◌≤◌, ◌++◌, take, drop, reverse, slice_range, length};

// Copies all of `from` to the beginning of `to`, and tells how many bytes that are.
pub fn copy(from: &[u8], to: &mut [u8]) -> usize
    requires { length from.now ≤ length to.old }
    ensures count { result ≡ length from.now }
    ensures copied { to.new ≡ take (length from.now) from.now ++ drop (length from.now) to.old }
{
    let n = from.len();
    to[..n].copy_from_slice(from);
    n
}

// Reverses the bytes from the place `start` to before the place `end`.
pub fn reverse(bytes: &mut [u8], start: usize, end: usize)
    requires ordered { start ≤ end }
    requires within { end ≤ length bytes.old }
    ensures { bytes.new ≡ take start bytes.old ++ (reverse (slice_range bytes.old start end) ++ drop end bytes.old) }
{
    bytes[start..end].reverse();
}
