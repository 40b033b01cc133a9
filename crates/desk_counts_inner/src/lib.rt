// Counts read from a word, a comma between two. No public calls.

#![tactic(auto)]

ghost use Rattle.std.specs.Prelude.{◌<◌, ◌≤◌, length};
ghost use Rattle.desk_counts_inner.specs.Says.{LastSays, ListedSays, WordSays};

// The last count, behind m others: how many counts there are; or it is none that can be read.
fn last_count(t: &[u8], out: &mut [usize], m: usize) -> Option<usize>
    requires { m < length out.old }
    ensures { LastSays t.now out.old m result out.new }
{
    let x = line::parse_number(t)?;
    out[m] = x;
    Some(m + 1)
}

// The counts of a text, one after another: how many there are; or one cannot be read.
fn counts_of(t: &[u8], out: &mut [usize]) -> Option<usize>
    requires t_len_bound { length t.now ≤ 4095 }
    requires t_in_bounds { length t.now < length out.old }
    ensures { ListedSays t.now result out.new }
{
    let mut at = 0;
    let mut m = 0;
    while let Some((x, e)) = desk_words_inner::head_at(&t[at..], b',') {
        out[m] = x;
        m += 1;
        at += e;
    }
    last_count(&t[at..], out, m)
}

// The counts of a text that is one word.
pub fn word_counts(t: &[u8], out: &mut [usize]) -> Option<usize>
    requires t_len_bound { length t.now ≤ 4095 }
    requires t_in_bounds { length t.now < length out.old }
    ensures { WordSays t.now result out.new }
{
    if text_spell_inner::piece_end(t, b' ') < t.len() {
        return None;
    }
    counts_of(t, out)
}
