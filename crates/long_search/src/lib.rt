// 4.2.11: the lag and its gain code. The 81 sums and the power never saturate (house rules, 'Six sums' (c) and (d)), so
// they are plain additions.
#![tactic(auto)]

ghost use Rattle.std.specs.Prelude.{◌≡◌, true, map, ◌+◌, ◌≤◌, pos, length};
ghost use Rattle.std.specs.Int.Signed.{lt_z};
ghost use Rattle.std.specs.Int.{w16};
ghost use Rattle.math_lists.specs.Best.{best};
ghost use Rattle.math_lists.specs.Every.{every};
ghost use Rattle.standard.specs.Arithmetic.{shr};
ghost use Rattle.standard.specs.LongTerm as standard;
ghost use Rattle.law_arithmetic.specs.Within.{word};
ghost use Rattle.op_sums.specs.Room.{at_most};
ghost use Rattle.long_search.specs.Search.{correlated, lasts, gain_code};

use op_sums::Found;

// What the search found: the lag, its sum before the rescaling, and whether any sum was above 0. If none was, the lag
// is 40, where the search starts. The flag stands beside the sum, although the sum decides it, because the promises of
// lag_and_gain and of the crates above name each of the three.
#[derive(Clone, Copy)]
pub struct Search {
    pub lag: usize,
    pub sum: i32,
    pub positive: bool,
}

// The search, and the gain code at its lag.
#[derive(Clone, Copy)]
pub struct Parameters {
    pub search: Search,
    pub bc: usize,
}

// scal: 6 less the norm of the largest size in d[0..39], not below 0.
fn scal(d: &[i16]) -> i16
    ensures { result ≡ standard.scal d.now }
{
    let dmax = op_sums::peak(d);
    let temp = if dmax == 0 {
        0
    } else {
        op_shifts::norm((dmax as i32) << 16)
    };
    if 6 < temp { 0 } else { op_words::sub(6, temp) }
}

// wt[0..39]: d, scaled to at most 512 in size.
fn weighed(scal: i16, d: &[i16]) -> [i16; 40]
    requires { (length d.now ≡ 40) × (scal ≡ standard.scal d.now) }
    ensures is { result ≡ map (λ x. shr w16 x scal) d.now }
    ensures small { every (at_most 512) result ≡ true }
{
    std::array::from_fn(|k| op_shifts::shr(d[k], scal))
}

// Each element of a slice is a word. The search has to know this before it adds the results of two calls. Reading the
// elements proves it, and the compiler removes the loop.
pub fn each_a_word(s: &[i16])
    ensures { every word s.now ≡ true }
{
    for &_word in s {}
}

// The sum of the last 8 of the 40 products, at each index of dp where a lag starts. The compiler makes vector code for
// 8 products and for 32, but not for 40. That 32 and 8 are the 40 is `lag_split` (specs/Search).
fn lasts(wt: &[i16], dp: &[i16]) -> [i32; 81]
    requires { ((length wt.now ≡ 40) × (length dp.now ≡ 120))
        × ((every (at_most 512) wt.now ≡ true) × (every word dp.now ≡ true)) }
    ensures { result ≡ lasts wt.now dp.now }
{
    std::array::from_fn(|j| op_sums::l_sum(&wt[32..40], &dp[32 + j..40 + j]))
}

// The lags from 40 to 120, upwards: at each the first 32 products and the last 8. The index i is data: the lag less 40.
fn lag_search(wt: &[i16], dp: &[i16]) -> Search
    requires { ((length wt.now ≡ 40) × (length dp.now ≡ 120)) × (every (at_most 512) wt.now ≡ true) }
    ensures lag { result.lag ≡ 40 + (best (correlated wt.now dp.now)).at }
    ensures sum { result.sum ≡ (best (correlated wt.now dp.now)).sum }
    ensures positive { result.positive ≡ lt_z (pos 0) (best (correlated wt.now dp.now)).sum }
{
    each_a_word(dp);
    let last = lasts(wt, dp);
    let mut found = Found { at: 0, sum: 0 };
    for i in 0..81 {
        found = op_sums::better(
            found,
            i,
            op_sums::l_sum(&wt[..32], &dp[80 - i..112 - i]) + last[80 - i],
        );
    }
    Search {
        lag: 40 + found.at,
        sum: found.sum,
        positive: 0 < found.sum,
    }
}

// The power of the reconstructed signal at the lag.
fn power(lag: usize, dp: &[i16]) -> i32
    requires { (length dp.now ≡ 120) × ((40 ≤ lag) × (lag ≤ 120)) }
    ensures { result ≡ standard.L_power lag dp.now }
{
    op_sums::l_squares(3, &dp[120 - lag..160 - lag])
}

// The first level that R does not exceed, or 3.
fn level(r: i16, s: i16) -> usize
    ensures { result ≡ standard.gain_level r s }
{
    (0..3)
        .find(|&i| r <= op_words::mult(s, op_tables::gain_dlb(i)))
        .unwrap_or(3)
}

// bc from L_max and L_power. Both are normalised by the norm of L_power. L_max is smaller, so it loses nothing either.
fn gain(lmax: i32, lpower: i32) -> usize
    ensures { result ≡ standard.bc lmax lpower }
{
    if lmax <= 0 {
        return 0;
    }
    if lpower <= lmax {
        return 3;
    }
    let temp = op_shifts::norm(lpower);
    level(
        op_shifts::normalized(temp, lmax),
        op_shifts::normalized(temp, lpower),
    )
}

// The lag and the gain code of d[0..39], from the 120 samples before.
pub fn lag_and_gain(d: &[i16], dp: &[i16]) -> Parameters
    requires { (length d.now ≡ 40) × (length dp.now ≡ 120) }
    ensures lag { result.search.lag ≡ standard.Nc (standard.lag_search d.now dp.now) }
    ensures sum { result.search.sum ≡ (standard.lag_search d.now dp.now).sum }
    ensures positive { result.search.positive
        ≡ lt_z (pos 0) (standard.lag_search d.now dp.now).sum }
    ensures bc { result.bc ≡ gain_code d.now dp.now }
{
    let n = scal(d);
    let wt = weighed(n, d);
    let search = lag_search(&wt, dp);
    let lmax = op_shifts::shr(search.sum, op_words::sub(6, n));
    let bc = gain(lmax, power(search.lag, dp));
    Parameters { search, bc }
}
