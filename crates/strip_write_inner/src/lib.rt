// Writing the strip along the frame, necklace after necklace. No public calls: the calls of crate `strip` check what these ask for.

#![tactic(auto)]

ghost use Rattle.std.specs.Prelude.{◌+◌, ◌^◌, ◌≤◌, ◌≡◌, length, replicate};
ghost use Rattle.walk_kind_laws.specs.Kinds.{ReadyToStep};
ghost use Rattle.limits_spec.specs.Limits.{Listable};
ghost use Rattle.strip_spec.specs.Strip.{strip};
ghost use Rattle.strip_write_inner.specs.Laying.{LaidDown};

use walk_kind_laws::Kind;

// The first p sectors of the ring go to the places of `out` from `at` on.
fn lay(ring: &[u8], p: usize, out: &mut [u8], at: usize)
    requires p_in_bounds { p ≤ length ring.now }
    requires p_in_bounds_2 { at + p ≤ length out.old }
    ensures { LaidDown ring.now p out.old at out.new }
{
    out[at..at + p].copy_from_slice(&ring[..p]);
}

// From the all-zero ring on: of each necklace its first `period` sectors, which are a Lyndon word whose length divides n.
fn write_from(ring: &mut [u8], k: usize, out: &mut [u8])
    requires ready_to_step { ReadyToStep k ring.old }
    requires ring_value { ring.old ≡ replicate (length ring.old) 0 }
    requires out_len { length out.old ≡ k ^ length ring.old }
    ensures { out.new ≡ strip (length ring.old) k }
{
    let mut at = 0;
    let mut period = 1;
    loop {
        lay(ring, period, out, at);
        at += period;
        let reached = walk_moves_inner::advance(ring, k, Kind::Necklace);
        let Some(lyn) = reached.lyn else {
            return;
        };
        period = lyn;
    }
}

// The strip of n and k.
pub fn write_whole(n: usize, k: usize, out: &mut [u8])
    requires listable { Listable 4096 k n }
    requires out_len { length out.old ≡ k ^ n }
    ensures { out.new ≡ strip n k }
{
    let mut ring = [0u8; 64];
    write_from(&mut ring[..n], k, out);
}
