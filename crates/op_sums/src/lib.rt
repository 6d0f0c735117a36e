// Over a list: the largest absolute value, the sum of products, the sum of squares. The sums (b) to (d) never saturate
// (house rules, 'Six sums'), so these are plain additions, which the compiler turns into vector code.
#![tactic(auto)]

ghost use Rattle.std.specs.Prelude.{◌≡◌, cond, ◌*◌, ◌-◌, ◌^◌, ◌<◌, ◌≤◌, pos, length};
ghost use Rattle.std.specs.Int.Signed.{lt_z};
ghost use Rattle.standard.specs.Arithmetic.{peak, L_sum, L_squares};
ghost use Rattle.op_sums.specs.Room.{Headroom};
ghost use Rattle.op_sums.specs.Search.{chosen, best_of};

// The best index so far, and its sum.
#[derive(Clone, Copy)]
pub struct Found {
    pub at: usize,
    pub sum: i32,
}

// 4.2.4, 4.2.11, 4.2.15: smax, dmax and xmax.
pub fn peak(s: &[i16]) -> i16
    ensures { result ≡ peak s.now }
{
    let mut max = 0i16;
    for &x in s {
        max = max.max(op_words::abs(x));
    }
    max
}

// 4.2.4, 4.2.11: the sum of L_mult of each pair, where it cannot saturate (`Headroom`). It is doubled once, at the end.
pub fn l_sum(a: &[i16], b: &[i16]) -> i32
    requires { Headroom a.now b.now }
    ensures { result ≡ L_sum (pos 0) a.now b.now }
{
    let mut sum = 0i32;
    for (&x, &y) in a.iter().zip(b) {
        sum += x as i32 * y as i32;
    }
    sum + sum
}

// 4.2.11: the sum of L_mult of each word by itself, once the words are shifted right by n.
pub fn l_squares(n: u16, xs: &[i16]) -> i32
    requires { (n ≤ 15) × (length xs.now * (2 ^ (15 - n) * 2 ^ (15 - n)) < 1073741824) }
    ensures { result ≡ L_squares n xs.now }
{
    let mut sum = 0i32;
    for &x in xs {
        let wt = (x >> n) as i32;
        sum += wt * wt;
    }
    sum + sum
}

// 4.2.11, 4.2.14: only a strictly greater sum replaces the one before, so of equal sums the first index is kept.
pub fn better(found: Found, at: usize, sum: i32) -> Found
    ensures { chosen result ≡ cond (lt_z found.sum sum) (best_of at sum) (chosen found) }
{
    if found.sum < sum {
        Found { at, sum }
    } else {
        found
    }
}
