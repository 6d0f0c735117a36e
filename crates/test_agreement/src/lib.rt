// Tests of what is claimed of both ends, made on the words themselves: two rows of words are the same; the four lags
// are in range. Also sets bits beside the fields of a frame (stray bits), to try that the decoder does not use them.
#![tactic(auto)]

ghost use Rattle.std.specs.Prelude.{◌≡◌, true, ◌↔◌, ◌^◌, ◌≤◌, pos, ◌+ℤ◌, ◌*ℤ◌, length};
ghost use Rattle.math_lists.specs.Every.{every};
ghost use Rattle.standard.specs.Arithmetic.{within};
ghost use Rattle.standard.specs.Tables.{neg, ◌at◌};
ghost use Rattle.standard.specs.Frame.{places};
ghost use Rattle.standard.specs.LongTerm.{is_lag};
ghost use Rattle.standard.specs.House.{fit, fits};
ghost use Rattle.test_agreement.specs.Stray.{stray};

// Whether two rows of words are the same.
pub fn same(a: &[i16], b: &[i16]) -> bool
    ensures { (result ≡ true) ↔ (a.now ≡ b.now) }
{
    a == b
}

// Whether the four lags are from 40 to 120.
pub fn lags(codewords: &[i16; 76]) -> bool
    ensures { result ≡ every (λ p. is_lag (codewords.now at p)) places }
{
    (0..4usize).all(|n| long_filter::is_lag(codewords[8 + 17 * n]))
}

// A codeword with k in the bits above its field.
fn beside(k: i16, width: u16, c: i16) -> i16
    requires { ((width ≤ 7) × (fit width c ≡ true)) × (within (neg 256) (pos 255) k ≡ true) }
    ensures { result ≡ c +ℤ k *ℤ pos (2 ^ width) }
{
    c + (k << width)
}

// Sets bits beside the valid ones: to each codeword, k times 2 to the power of its field's width is added.
pub fn strayed(k: i16, codewords: &mut [i16; 76])
    requires { (fits codewords.old ≡ true) × (within (neg 256) (pos 255) k ≡ true) }
    ensures { codewords.new ≡ stray k codewords.old }
{
    for (i, c) in codewords.iter_mut().enumerate() {
        *c = beside(k, frame_codewords::field_width(i), *c);
    }
}
