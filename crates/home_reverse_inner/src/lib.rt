// A lent reading reversed, as it is seen from the other side before it is brought home. No public calls: the callers check what this asks for.

#![tactic(auto)]

ghost use Rattle.std.specs.Prelude.{◌≡◌, reverse, length};

// Writes the reversed sectors.
pub fn write_reversed(s: &[u8], out: &mut [u8])
    requires { length out.old ≡ length s.now }
    ensures { out.new ≡ reverse s.now }
{
    out.copy_from_slice(s);
    out.reverse();
}
