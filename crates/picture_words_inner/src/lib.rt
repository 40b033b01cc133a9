// What the words behind the number print in the command for one target, placed at the beginning of a lent buffer that has room for a picture. No public calls.

#![tactic(auto)]

ghost use Rattle.std.specs.Prelude.{◌≤◌, ◌≡◌, length};
ghost use Rattle.picture_spec.specs.Says.{picture_room};
ghost use Rattle.picture_words_inner.specs.Says.{TargetPrinted, SpeltPrinted, WordsPrinted};

use picture_spec::Tone;

// The picture of a reading, or its refusal's line.
fn print_target(k: usize, w: &[u8], tone: Tone, buf: &mut [u8]) -> usize
    requires { picture_room ≤ length buf.old }
    ensures { TargetPrinted k w.now tone buf.old result buf.new }
{
    match pictures::draw(w, k, tone, buf) {
        Ok(m) => m,
        Err(r) => desk_texts_inner::place_refusal(buf, 0, r),
    }
}

// The same of digits, which are spelt into the lent bytes w.
fn print_spelt(k: usize, t: &[u8], tone: Tone, w: &mut [u8], buf: &mut [u8]) -> usize
    requires w_len { length w.old ≡ length t.now }
    requires picture_room_in_bounds { picture_room ≤ length buf.old }
    ensures { SpeltPrinted k t.now tone buf.old result buf.new }
{
    if !text_spell_inner::spell(t, w) {
        return desk_texts_inner::place_malformed(buf, 0);
    }
    print_target(k, w, tone, buf)
}

// The words behind the number: digits, and `levels` or nothing.
pub fn print_words(k: usize, t: &[u8], w: &mut [u8], buf: &mut [u8]) -> usize
    requires t_in_bounds { length t.now ≤ length w.old }
    requires picture_room_in_bounds { picture_room ≤ length buf.old }
    ensures { WordsPrinted k t.now buf.old result buf.new }
{
    let e = text_spell_inner::piece_end(t, b' ');
    if t.len() <= e {
        return print_spelt(k, t, Tone::Managed, &mut w[..e], buf);
    }
    if &t[e + 1..] != b"levels".as_slice() {
        return desk_texts_inner::place_malformed(buf, 0);
    }
    print_spelt(k, &t[..e], Tone::Levels, &mut w[..e], buf)
}
