// Whether a Lyndon word can be completed by given letters to a necklace. No arrangement of the letters is tried: a pool of words decides it
// (`shades_laws`, proofs/Pool and Groups). No public call of the catalogue: those of `shades` check what it asks for.

#![tactic(auto)]

ghost use Rattle.std.specs.Prelude.{◌≡◌, ◌≤◌, length};
ghost use Rattle.words.specs.Sum.{sum_of};
ghost use Rattle.shades_completable_inner.specs.Completion.{Completing, Decides, Least, Numbered, Opened};

// The least letter of which some is left, or how many counts there are.
fn least_left(rem: &[usize]) -> usize
    ensures { Least rem.now result }
{
    rem.iter().position(|&left| left != 0).unwrap_or(rem.len())
}

// How many there are of each letter: of letter b at place 64 + b.
fn numbers(rem: &[usize]) -> [u8; 80]
    requires { (length rem.now ≤ 16) × (sum_of rem.now ≤ 64) }
    ensures { Numbered rem.now result }
{
    let mut num = [0u8; 80];
    for (b, &left) in rem.iter().enumerate() {
        num[64 + b] = left as u8;
    }
    num
}

// The pool, where b is the least letter that is left and al begins with it. Its least word is the first a sectors of al, q times; the other words are groups, from node f up to
// node e, of which the last is the greatest.
fn decide(al: &[u8], rem: &[usize], b: usize) -> bool
    requires { Opened al.now rem.now b }
    ensures { Decides al.now rem.now result }
{
    let mut num = numbers(rem);
    let mut pre = [0u8; 80];
    let mut next = [0u8; 80];
    let first = b + 65;
    let mut q = rem[b];
    let mut a: usize = 1;
    let mut f = first;
    let mut e = rem.len() + 64;
    loop {
        if e == f {
            return false; // only copies of the least word are left
        }
        let g = e - 1;
        let x = num[g] as usize;
        if x == 0 {
            e = g;
        } else if x < q {
            // each word of the last group takes a copy of the least word in front
            f -= 1;
            num[f] = x as u8;
            pre[f] = a as u8;
            next[f] = g as u8;
            q -= x;
            e = g;
        } else {
            // each copy of the least word takes a word of the last group behind it
            num[g] = (x - q) as u8;
            let r = shades_pool_inner::against(al, &pre, &next, first, g, a);
            if r == 0 {
                return false;
            }
            if al.len() <= r {
                return true;
            }
            a = r;
        }
    }
}

// Whether some word with exactly the letters that rem counts completes al to a necklace.
pub fn completable(al: &[u8], rem: &[usize]) -> bool
    requires { Completing al.now rem.now }
    ensures { Decides al.now rem.now result }
{
    let b = least_left(rem);
    if b == rem.len() {
        return true; // nothing is to be added
    }
    let x = al[0] as usize;
    if b < x {
        return false;
    }
    if x < b {
        return true;
    }
    if al.len() == 1 {
        return true;
    }
    decide(al, rem, b)
}
