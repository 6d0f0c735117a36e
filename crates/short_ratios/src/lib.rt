// 4.2.8, 4.2.9: the decoded ratios, their interpolation and the coefficients of both lattices; and a coefficient's
// product, which both take.
#![tactic(auto)]

ghost use Rattle.std.specs.Prelude.{◌≡◌, true, pos};
ghost use Rattle.std.specs.Int.Signed.{le_z};
ghost use Rattle.standard.specs.Arithmetic.{mult_r};
ghost use Rattle.standard.specs.ShortTerm.{LARpp, ratios, from_ratio, rp};
ghost use Rattle.short_ratios.specs.Stretches.{LARp, rps};
ghost use Rattle.law_arithmetic.specs.Within.{word};
ghost use Rattle.short_ratios.specs.Bounds.{factor};

// 4.2.8: LARpp[i + 1].
fn larpp(i: usize, larc: i16) -> i16
    ensures { result ≡ LARpp i larc }
{
    let temp1 = op_words::sub(
        op_words::add(larc, op_tables::lar_mic(i)) << 10,
        op_tables::lar_b(i) << 1,
    );
    let temp = op_words::mult_r(op_tables::lar_inva(i), temp1);
    op_words::add(temp, temp)
}

// 4.2.8: LARpp[1..8].
pub fn ratios(larc: [i16; 8]) -> [i16; 8]
    ensures { result ≡ ratios larc }
{
    std::array::from_fn(|i| larpp(i, larc[i]))
}

// 4.2.9.1: a ratio interpolated between the last frame's and this one's. The stretches j from 0 to 3 are samples 0 to
// 12, 13 to 26, 27 to 39 and 40 to 159. j stays a number: it is the place of a stretch in the standard's list, and the
// promise names it (`LARp j`, `rps j`).
fn larp(j: usize, old: i16, new: i16) -> i16
    ensures { result ≡ LARp j old new }
{
    match j {
        0 => op_words::add(op_words::add(old >> 2, new >> 2), old >> 1),
        1 => op_words::add(old >> 1, new >> 1),
        2 => op_words::add(op_words::add(old >> 2, new >> 2), new >> 1),
        _ => new,
    }
}

// 4.2.9.2: the piecewise line, for a number that is not negative. It is the least of its three lines (`least_is`,
// specs/Least). The least takes no branch, so the compiler makes vector code for the eight.
fn from_ratio(size: i16) -> i16
    requires { le_z (pos 0) size ≡ true }
    ensures { result ≡ from_ratio size }
{
    op_words::add(size, size)
        .min(op_words::add(size, 11059))
        .min(op_words::add(size >> 2, 26112))
}

// 4.2.9.2: rp[i] of LARp[i]. The function of 4.2.6 has this shape too; one that took the line as a closure would be no
// shorter.
fn rp(larp: i16) -> i16
    ensures { result ≡ rp larp }
{
    let temp = from_ratio(op_words::abs(larp));
    if larp < 0 {
        op_words::sub(0, temp)
    } else {
        temp
    }
}

// 4.2.9: rp[1..8] in stretch j.
pub fn coefficients(j: usize, old: [i16; 8], new: [i16; 8]) -> [i16; 8]
    ensures { result ≡ rps j old new }
{
    std::array::from_fn(|i| rp(larp(j, old[i], new[i])))
}

// 4.2.10, 4.3.4: mult_r of a coefficient and a word, both held in 32 bits. The coefficient is not -32768 (`rps_above`,
// specs/Bounds), so mult_r cannot saturate.
pub fn term(rp: i32, x: i32) -> i32
    requires { (factor rp ≡ true) × (word x ≡ true) }
    ensures { result ≡ mult_r rp x }
{
    (rp * x + 16384) >> 15
}
