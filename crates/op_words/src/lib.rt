// 4.1: the operations whose result is a word, and a word as an index. Each promise is that the result is the
// standard's, exact at the ends of the range.
#![tactic(auto)]

ghost use Rattle.std.specs.Prelude.{◌≡◌};
ghost use Rattle.std.specs.Int.{w16};
ghost use Rattle.math_integers.specs.Halves.{P};
ghost use Rattle.standard.specs.Arithmetic.{clip, add, sub, mult, mult_r, abs, div};

// Saturation at the ends of a word.
pub fn clip_word(z: i32) -> i16
    ensures { result ≡ clip w16 z }
{
    z.clamp(-32768, 32767) as i16
}

// The sum is made on 32 bits and clipped. In a loop that is one saturating instruction for eight words; std's
// saturating_add takes four. The same holds of sub.
pub fn add(a: i16, b: i16) -> i16
    ensures { result ≡ add a b }
{
    clip_word(a as i32 + b as i32)
}

pub fn sub(a: i16, b: i16) -> i16
    ensures { result ≡ sub a b }
{
    clip_word(a as i32 - b as i32)
}

// The shift rounds down, for negative products too.
pub fn mult(a: i16, b: i16) -> i16
    ensures { result ≡ mult a b }
{
    clip_word((a as i32 * b as i32) >> 15)
}

// As mult, rounded to the nearest.
pub fn mult_r(a: i16, b: i16) -> i16
    ensures { result ≡ mult_r a b }
{
    clip_word((a as i32 * b as i32 + 16384) >> 15)
}

// abs(-32768) is 32767, because 32768 is no word.
pub fn abs(a: i16) -> i16
    ensures { result ≡ abs a }
{
    a.saturating_abs()
}

// The fraction num / denum in 15 bits. A zero numerator gives 0, for every divisor.
pub fn div(num: i16, denum: i16) -> i16
    ensures { result ≡ div num denum }
{
    if num <= 0 {
        0
    } else if denum <= 0 {
        0
    } else if denum <= num {
        32767
    } else {
        (num as u32 * 32768 / denum as u32) as i16
    }
}

// A word as an index of a table or a list; 0 where it is negative.
pub fn place_of(n: i16) -> usize
    ensures { result ≡ P n }
{
    n.max(0) as usize
}
