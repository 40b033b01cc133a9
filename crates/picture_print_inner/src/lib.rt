// What the command for one target prints, placed at the beginning of a lent buffer that has room for a picture. No public calls.

#![tactic(auto)]

ghost use Rattle.std.specs.Prelude.{◌≤◌, length};
ghost use Rattle.picture_spec.specs.Says.{picture_room};
ghost use Rattle.picture_print_spec.specs.Prints.{PicturePrints};
ghost use Rattle.picture_words_inner.specs.Says.{PictureText};
ghost use Rattle.picture_print_inner.specs.Says.{LinePrints};

// The line without its newline.
fn print_line(l: &[u8], w: &mut [u8], buf: &mut [u8]) -> usize
    requires l_in_bounds { length l.now ≤ length w.old }
    requires picture_room_in_bounds { picture_room ≤ length buf.old }
    ensures { LinePrints l.now buf.old result buf.new }
{
    let Some((k, at)) = desk_words_inner::head_of(l) else {
        return desk_texts_inner::place_malformed(buf, 0);
    };
    picture_words_inner::print_words(k, &l[at..], w, buf)
}

// What an input prints; w lends a byte for each of its own.
pub fn print_input(s: &[u8], w: &mut [u8], buf: &mut [u8]) -> usize
    requires s_in_bounds { length s.now ≤ length w.old }
    requires picture_room_in_bounds { picture_room ≤ length buf.old }
    ensures { PictureText (PicturePrints s.now) buf.old result buf.new }
{
    let e = text_spell_inner::piece_end(s, b'\n');
    if 1 < s.len() - e {
        return desk_texts_inner::place_malformed(buf, 0);
    }
    print_line(&s[..e], w, buf)
}
