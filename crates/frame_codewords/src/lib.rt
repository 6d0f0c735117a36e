// House rules, 'Samples and codewords': the fields of the 76 codewords, and the valid bits of a received one.
#![tactic(auto)]

ghost use Rattle.std.specs.Prelude.{◌≡◌, pos, ◌≤◌, ◌<◌, length, get_or, slice_index, EachIndex};
ghost use mathlib.Core.List.{zip_with};
ghost use Rattle.math_lists.specs.Every.{every};
ghost use Rattle.standard.specs.Tables.{LARc_widths};
ghost use Rattle.standard.specs.Frame.{sub_widths, widths};
ghost use Rattle.standard.specs.House.{fit, fits};
ghost use Rattle.law_fields.specs.Valid.{low_bits};

// The bits of each field: of the eight ratios, and of a sub-frame.
pub const LARC_BITS: [u16; 8] = [6, 6, 5, 5, 4, 4, 3, 3];

pub const SUB_BITS: [u16; 17] = [7, 2, 2, 6, 3, 3, 3, 3, 3, 3, 3, 3, 3, 3, 3, 3, 3];

// Table 5.1a: the bits of LARc[i + 1]; past the end, 0.
pub fn larc_width(i: usize) -> u16
    ensures { result ≡ get_or LARc_widths i 0 }
{
    LARC_BITS.get(i).copied().unwrap_or(0)
}

// A sub-frame's lag, gain, grid, block amplitude and thirteen pulses; past the end, 0.
pub fn sub_width(i: usize) -> u16
    ensures { result ≡ get_or sub_widths i 0 }
{
    SUB_BITS.get(i).copied().unwrap_or(0)
}

// The bits of codeword i of the 76; past the end, 0.
pub fn field_width(i: usize) -> u16
    ensures { result ≡ get_or widths i 0 }
{
    if i < 8 {
        larc_width(i)
    } else if i < 76 {
        sub_width((i - 8) % 17)
    } else {
        0
    }
}

// The low bits of a codeword, as many as the width says. Adding 65536 does not change them, and makes the number
// positive.
fn low_bits(c: i16, width: u16) -> i16
    requires { width ≤ 15 }
    ensures { result ≡ low_bits width c }
{
    ((c as i32 + 65536) as u32 % (1u32 << width)) as i16
}

// The valid bits of codewords, each in its own width.
fn valid<const N: usize>(widths: &[u16], c: &[i16]) -> [i16; N]
    requires { (length widths.now ≡ N) × (length c.now ≡ N)
        × EachIndex widths.now (λ i. slice_index widths.now i ≤ 15) }
    ensures { result ≡ zip_with low_bits widths.now c.now }
{
    std::array::from_fn(
        |i| -> i16
            requires { (i < length c.now) × (i < length widths.now) × (slice_index widths.now i ≤ 15) }
            ensures { result ≡ low_bits (slice_index widths.entry.now i) (get_or c.entry.now i (pos 0)) }
        { low_bits(c[i], widths[i]) },
    )
}

// The valid bits of the eight ratios.
pub fn larc_valid(c: &[i16]) -> [i16; 8]
    requires { length c.now ≡ 8 }
    ensures { result ≡ zip_with low_bits LARc_widths c.now }
{
    valid(&LARC_BITS, c)
}

// The valid bits of a sub-frame.
pub fn sub_valid(c: &[i16]) -> [i16; 17]
    requires { length c.now ≡ 17 }
    ensures { result ≡ zip_with low_bits sub_widths c.now }
{
    valid(&SUB_BITS, c)
}

// Whether a codeword fits its field. A negative one does not: its high bits are 1.
fn fit(width: u16, c: i16) -> bool
    requires { width ≤ 15 }
    ensures { result ≡ fit width c }
{
    c >= 0 && (c as u32) < (1u32 << width)
}

// Whether each codeword fits its field. The loop has no exit, so that the compiler unrolls it.
fn all_fit(widths: &[u16], c: &[i16]) -> bool
    requires { (length c.now ≡ length widths.now) × EachIndex widths.now (λ i. slice_index widths.now i ≤ 15) }
    ensures { result ≡ every (λ b. b) (zip_with fit widths.now c.now) }
{
    let mut all = true;
    for (&word, &width) in c.iter().zip(widths) {
        all &= fit(width, word);
    }
    all
}

// Whether each of 76 codewords fits its field.
pub fn fits(c: &[i16]) -> bool
    requires { length c.now ≡ 76 }
    ensures { result ≡ fits c.now }
{
    if !all_fit(&LARC_BITS, &c[..8]) {
        return false;
    }
    for sub in c[8..].chunks_exact(17) {
        if !all_fit(&SUB_BITS, sub) {
            return false;
        }
    }
    true
}
