// Words of the pool as chains of nodes: a word is a beginning of al and then the word of another node, or a letter. Comparing such a word with al. No public calls.

#![tactic(auto)]

ghost use Rattle.shades_pool_inner.specs.Chain.{Agree, Chained, Compares};

// How far v and w agree.
fn agree(v: &[u8], w: &[u8]) -> usize
    ensures { Agree v.now w.now result }
{
    v.iter()
        .zip(w)
        .position(|(x, y)| x != y)
        .unwrap_or(v.len().min(w.len()))
}

// How the first a sectors of al, with the word of node g behind them, compare with al: 0 where they lie under it, their number where they are a beginning of it, and the
// length of al where they do not stand before it.
pub fn against(al: &[u8], pre: &[u8], next: &[u8], first: usize, g: usize, a: usize) -> usize
    requires { Chained al.now pre.now next.now first g a }
    ensures { Compares al.now pre.now next.now first g a result }
{
    let mut i = g;
    let mut c = a;
    while i < first {
        let p = pre[i] as usize;
        let d = agree(&al[..p], &al[c..]);
        if d == al.len() - c {
            return al.len();
        }
        if d < p {
            if al[d] < al[c + d] {
                return 0;
            }
            return al.len();
        }
        c += p;
        i = next[i] as usize;
    }
    let x = i - 64;
    let y = al[c] as usize;
    if x < y {
        return 0;
    }
    if y < x {
        return al.len();
    }
    c + 1
}
