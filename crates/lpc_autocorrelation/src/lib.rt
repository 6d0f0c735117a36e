// 4.2.4: scaling, the nine sums, and the scaling back. The sums never saturate (house rules, 'Six sums' (b)), so they
// are plain additions.
#![tactic(auto)]

ghost use Rattle.std.specs.Prelude.{◌≡◌, true, ◌≤◌, length};
ghost use Rattle.math_lists.specs.Every.{every};
ghost use Rattle.standard.specs.Lpc.{scalauto, scaled, rescaled, L_ACF};
ghost use Rattle.op_sums.specs.Room.{at_most};
ghost use Rattle.lpc_autocorrelation.specs.Blocks.{padded, upto};

// scalauto: if it is above 0, the number of bits by which the samples are scaled down, to at most 2048 in size; 0 for
// silence.
pub fn scalauto(s: &[i16]) -> i16
    ensures { result ≡ scalauto s.now }
{
    let smax = op_sums::peak(s);
    if smax == 0 {
        0
    } else {
        op_words::sub(4, op_shifts::norm(i32::from(smax) << 16))
    }
}

// Scaling, if scalauto is above 0.
pub fn scaled(scale: i16, s: &mut [i16])
    ensures { s.new ≡ scaled scale s.old }
{
    if 0 < scale {
        let factor = op_shifts::shr(16384, op_words::sub(scale, 1));
        for x in s.iter_mut() {
            *x = op_words::mult_r(*x, factor);
        }
    }
}

// The samples after eight zeros, so that every sum goes over all 160.
fn padded(s: &[i16]) -> [i16; 168]
    requires { length s.now ≡ 160 }
    ensures { result ≡ padded s.now }
{
    let mut z = [0; 168];
    z[8..].copy_from_slice(s);
    z
}

// The sum of the products of each sample and the one k samples before it, in five blocks of 32, for which the compiler
// makes vector code. A product with one of the zeros adds nothing: that this is L_ACF[k] is `upto_all` (specs/Blocks).
fn at_distance(k: usize, z: &[i16; 168]) -> i32
    requires { (every (at_most 2048) z.now ≡ true) × (k ≤ 8) }
    ensures { result ≡ upto z.now k 160 }
{
    let mut sum = 0;
    for j in 0..5 {
        let a = 32 * j;
        sum += op_sums::l_sum(&z[8 + a..40 + a], &z[8 - k + a..40 - k + a]);
    }
    sum
}

// L_ACF[0..8] from the scaled samples.
pub fn l_acf(s: &[i16]) -> [i32; 9]
    requires { (length s.now ≡ 160) × (every (at_most 2048) s.now ≡ true) }
    ensures { result ≡ L_ACF s.now }
{
    let z = padded(s);
    std::array::from_fn(|k| at_distance(k, &z))
}

// Scaling back. The shift keeps the low 16 bits: at scalauto 4 a sample from 32760 to 32767 becomes -32768.
// `scaled` does another operation. One function for both would take it as a closure, and have a contract longer than
// the loop.
pub fn rescaled(scale: i16, s: &mut [i16])
    ensures { s.new ≡ rescaled scale s.old }
{
    if 0 < scale {
        for x in s.iter_mut() {
            *x = op_shifts::shl(*x, scale);
        }
    }
}
