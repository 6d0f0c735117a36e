// 4.2.15, APCM quantization of the selected RPE sequence: the code of the block amplitude, its exponent and mantissa,
// and the codes of the thirteen pulses.
#![tactic(auto)]

ghost use Rattle.std.specs.Prelude.{◌≡◌, true, suc, ◌*◌, ◌^◌, ◌≤◌, leb, pos};
ghost use Rattle.std.specs.Int.Signed.{le_z, shr_z};
ghost use Rattle.std.specs.Int.{w16};
ghost use Rattle.math_integers.specs.Halves.{P};
ghost use Rattle.math_lists.specs.First.{first};
ghost use Rattle.standard.specs.Arithmetic.{shl, add, mult};
ghost use Rattle.standard.specs.House.{fit};
ghost use Rattle.standard.specs.Rpe.{exponent, xmaxc, amplitude, xMc};
ghost use Rattle.rpe_quantise.specs.Counts.{Count};

// The exponent of the block amplitude xmax: how often xmax >> 9 is halved until it is 0. That is its number of bits.
fn exponent(xmax: i16) -> i16
    ensures { result ≡ pos (exponent xmax) }
{
    16 - (xmax.max(0) >> 9).leading_zeros() as i16
}

// The code of the block amplitude.
pub fn xmaxc(xmax: i16) -> i16
    ensures { result ≡ xmaxc xmax }
{
    let exp = exponent(xmax);
    (xmax >> (exp + 5)) + (exp << 3)
}

// The decoded block amplitude: exponent from -4 to 6, mantissa from 0 to 7.
#[derive(Clone, Copy)]
pub struct Amplitude {
    pub exp: i16,
    pub mant: i16,
}

// How often a mantissa plus 1 is doubled until it is above 8: 4 less the mantissa's number of bits.
fn doublings(mant: i16) -> i16
    requires { Count mant }
    ensures { result ≡ pos (first (λ n. leb 9 (suc (P mant) * 2 ^ n)) 4 0) }
{
    mant.leading_zeros() as i16 - 12
}

// The exponent and the mantissa of a block amplitude's code, as both ends decode it.
pub fn exp_and_mant(xmaxc: i16) -> Amplitude
    requires { fit 6 xmaxc ≡ true }
    ensures exp { result.exp ≡ (amplitude xmaxc).exp }
    ensures mant { result.mant ≡ pos (amplitude xmaxc).mant }
{
    let exp = if xmaxc <= 15 { 0 } else { (xmaxc >> 3) - 1 };
    let mant = xmaxc - (exp << 3);
    let n = doublings(mant);
    Amplitude {
        exp: exp - n,
        mant: ((mant + 1) << n) - 9,
    }
}

// The code of one pulse. The two right shifts, by 15 in mult and by 12, are done as one. The result has three bits and
// a sign.
fn pulse_code(temp1: i16, temp2: i16, xm: i16) -> i16
    requires { (Count temp1) × (le_z (pos 0) temp2 ≡ true) }
    ensures { result ≡ add (shr_z (mult (shl w16 xm temp1) temp2) 4096) (pos 4) }
{
    (((xm << temp1) as i32 * temp2 as i32) >> 27) as i16 + 4
}

// The codes of the thirteen pulses.
pub fn pulse_codes(code: i16, xm: [i16; 13]) -> [i16; 13]
    requires { fit 6 code ≡ true }
    ensures { result ≡ xMc (amplitude code) xm }
{
    let a = exp_and_mant(code);
    let temp1 = 6 - a.exp;
    let temp2 = op_tables::mantissa_nrfac(a.mant as usize);
    std::array::from_fn(|i| pulse_code(temp1, temp2, xm[i]))
}
