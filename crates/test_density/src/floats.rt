// Floats by their bit patterns, for the cases of this program.

// The float of the word that has `before` words before it.
pub fn word(line: &[u8], before: usize) -> f32 {
    let mut b = [0u8; 4];
    test_cases::bytes(line, before, &mut b);
    desk_floats_inner::of_pattern(u32::from_be_bytes(b))
}

// The eight digits of a pattern, the first the highest.
fn print_pattern(bits: u32) {
    let mut digits = [0u8; 8];
    let mut rest = bits;
    for digit in digits.iter_mut().rev() {
        *digit = (rest % 16) as u8;
        rest /= 16;
    }
    test_show::sectors(&digits);
}

// A float's pattern behind a name.
pub fn print(name: &[u8], x: f32) {
    test_show::text(name);
    if x != x {
        test_show::text(b"not a number");
        return;
    }
    print_pattern(f32::to_bits(x));
}

// The floats of `many` words behind `before` words, written from the front of out on; how many they are.
pub fn words(line: &[u8], before: usize, many: usize, out: &mut [f32]) -> usize {
    let n = many.min(out.len());
    for (i, x) in out[..n].iter_mut().enumerate() {
        *x = word(line, std::num::wrapping_add_usize(before, i));
    }
    n
}

// j / (k - 1).
fn step(j: u8, k: usize) -> f32 {
    if k < 2 || 16 < k {
        return 0.0;
    }
    (j as f32) / (((k - 1) as u8) as f32)
}

// The k values j / (k - 1), written from the front of out on; how many they are.
pub fn steps(k: usize, out: &mut [f32]) -> usize {
    let n = k.min(out.len()).min(65);
    for (j, x) in (0..65).zip(&mut out[..n]) {
        *x = step(j, k);
    }
    n
}
