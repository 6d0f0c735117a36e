// 4.2.16, 4.2.17: from a block amplitude and its pulses' codes back to the samples on the grid, as both ends do it.
#![tactic(auto)]

ghost use Rattle.std.specs.Prelude.{◌≡◌, true, ◌≤◌, pos};
ghost use Rattle.std.specs.Int.Signed.{le_z};
ghost use Rattle.std.specs.Int.{w16};
ghost use Rattle.standard.specs.Arithmetic.{up, shr, add, sub, mult_r};
ghost use Rattle.standard.specs.House.{fit};
ghost use Rattle.standard.specs.Rpe.{amplitude, xMp, ep};
ghost use Rattle.rpe_quantise.specs.Counts.{Count};
ghost use Rattle.rpe_inverse.specs.Inverse.{Rounding};

// 4.2.16: one pulse. The mantissa is not negative and the rounding term is small, so neither the product nor the sum
// saturates.
fn pulse(temp1: i16, temp2: i16, temp3: i16, xmc: i16) -> i16
    requires { (le_z (pos 0) temp1 ≡ true) × ((Count temp2) × Rounding temp3) }
    ensures { result ≡ shr w16 (add (mult_r temp1 (up w16 (sub (up w16 xmc 1) (pos 7)) 12)) temp3) temp2 }
{
    let x = op_words::sub(xmc << 1, 7) << 12;
    let temp = (temp1 as i32 * x as i32 + 16384) >> 15;
    ((temp + temp3 as i32) >> temp2) as i16
}

// 4.2.16: the thirteen pulses, scaled by their block amplitude. At exponent 6 the rounding term is 1 << -1, which is 0.
pub fn inverse(xmaxc: i16, xmc: [i16; 13]) -> [i16; 13]
    requires { fit 6 xmaxc ≡ true }
    ensures { result ≡ xMp (amplitude xmaxc) xmc }
{
    let a = rpe_quantise::exp_and_mant(xmaxc);
    let temp1 = op_tables::mantissa_fac(a.mant as usize);
    let temp2 = 6 - a.exp;
    let temp3 = op_shifts::shl(1, temp2 - 1);
    std::array::from_fn(|i| pulse(temp1, temp2, temp3, xmc[i]))
}

// 4.2.17: each pulse at its grid position, zeros between.
pub fn positioned(mc: usize, xmp: [i16; 13]) -> [i16; 40]
    requires { mc ≤ 3 }
    ensures { result ≡ ep mc xmp }
{
    let mut ep = [0i16; 40];
    for (i, &pulse) in xmp.iter().enumerate() {
        ep[mc + 3 * i] = pulse;
    }
    ep
}
