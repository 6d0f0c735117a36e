// 4.2.13, 4.2.14: the weighting filter and the choice of the grid. The filter's sum and a grid's energy never saturate
// (house rules, 'Six sums' (e) and (f)), so they are plain additions. The filter's two doublings can saturate.
#![tactic(auto)]

ghost use Rattle.std.specs.Prelude.{◌≡◌, true, ◌++◌, ◌*◌, ◌≤◌, pos, ◌+ℤ◌, ◌*ℤ◌, nat_abs, length, replicate};
ghost use Rattle.math_lists.specs.Every.{every};
ghost use Rattle.standard.specs.Rpe.{filtered, weighted, grid, Mc};
ghost use Rattle.op_sums.specs.Room.{at_most};
ghost use Rattle.rpe_weighting.specs.Energy.{squared, total};

use op_sums::Found;

// 4.2.13: wt[0..49], which is e[0..39] with five zeros on either side.
fn surrounded(e: [i16; 40]) -> [i16; 50]
    ensures { result ≡ replicate 5 (pos 0) ++ (e ++ replicate 5 (pos 0)) }
{
    let mut wt = [0i16; 50];
    wt[5..45].copy_from_slice(&e);
    wt
}

// A tap times the sum of the two samples that share it.
fn tap(h: i32, a: i16, b: i16) -> i32
    requires { nat_abs h ≤ 8192 }
    ensures is { result ≡ h *ℤ (a +ℤ b) }
    ensures near { nat_abs result ≤ nat_abs h * 65536 }
{
    h * (a as i32 + b as i32)
}

// 4.2.13: x[k] from wt[k] to wt[k + 10]. The taps are those of table 4.4, without the two that are 0. The standard adds
// twice each product to 8192, doubles the sum twice with saturation and takes the high word. The code adds the products
// and 4096, shifts the sum right by 13 and saturates once. The result is the same.
fn filtered(wt: &[i16]) -> i16
    requires { length wt.now ≡ 11 }
    ensures { result ≡ filtered wt.now }
{
    let outer = tap(-134, wt[0], wt[10]) + tap(-374, wt[1], wt[9]);
    let inner = tap(2054, wt[3], wt[7]) + tap(5741, wt[4], wt[6]);
    op_words::clip_word((outer + inner + 8192 * wt[5] as i32 + 4096) >> 13)
}

// 4.2.13: x[0..39] of the long term residual e[0..39].
pub fn weighted(e: [i16; 40]) -> [i16; 40]
    ensures { result ≡ weighted e }
{
    let wt = surrounded(e);
    std::array::from_fn(|k| filtered(&wt[k..k + 11]))
}

// 4.2.14: every third sample, from m on.
pub fn grid(m: usize, x: [i16; 40]) -> [i16; 13]
    requires { m ≤ 3 }
    ensures { result ≡ grid m x }
{
    std::array::from_fn(|i| x[m + 3 * i])
}

// 4.2.14: the square of each sample, after a shift right by 2. The four energies are sums of these.
fn squares(x: [i16; 40]) -> [i32; 40]
    ensures is { result ≡ squared x }
    ensures small { every (at_most 67108864) result ≡ true }
{
    std::array::from_fn(|k| {
        let t = (x[k] >> 2) as i32;
        t * t
    })
}

// The sums of the squares on grids 0, 1 and 2. Thirteen squares fit 32 bits, so these are plain additions.
fn totals(q: [i32; 40]) -> (i32, i32, i32)
    requires { every (at_most 67108864) q ≡ true }
    ensures first { result.0 ≡ total 0 q }
    ensures second { result.1 ≡ total 1 q }
    ensures third { result.2 ≡ total 2 q }
{
    let mut first = 0;
    let mut second = 0;
    let mut third = 0;
    for n in 0..13 {
        first += q[3 * n];
        second += q[3 * n + 1];
        third += q[3 * n + 2];
    }
    (first, second, third)
}

// 4.2.14: the grid of the greatest energy. Grid 3 is grid 0 without its first sample and with sample 39.
// Each sum is doubled once, where L_mult in the standard doubles each square.
pub fn mc(x: [i16; 40]) -> usize
    ensures { result ≡ Mc x }
{
    let q = squares(x);
    let (first, second, third) = totals(q);
    let energies = [first, second, third, first - q[0] + q[39]];
    let mut found = Found { at: 0, sum: 0 };
    for (m, &energy) in energies.iter().enumerate() {
        found = op_sums::better(found, m, energy + energy);
    }
    found.at
}
