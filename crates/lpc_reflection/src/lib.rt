// 4.2.5: the reflection coefficients, by the recursion over P and K, and how it ended.
#![tactic(auto)]

ghost use Rattle.std.specs.Prelude.{◌≡◌, true, ◌≤◌, pos, replicate};
ghost use Rattle.std.specs.Int.Signed.{lt_z, le_z};
ghost use Rattle.standard.specs.Tables.{◌at◌};
ghost use Rattle.standard.specs.Lpc as lpc;
ghost use Rattle.law_loops.specs.Recursion.{PK_loop, K_start};
ghost use Rattle.lpc_reflection.specs.Promise.{ended};

// How the recursion ended: not started, because the first sum is 0; stopped at step 1 to 8; or all steps done.
#[derive(Clone, Copy, PartialEq, Eq, Debug)]
pub enum Ending {
    Silent,
    Stopped(u8),
    Complete,
}

// r[1..8] and the ending.
#[derive(Clone, Copy)]
pub struct Reflection {
    pub r: [i16; 8],
    pub ending: Ending,
}

// The two arrays of the recursion, P[0..8] and K[0..8]. K[0] and K[1] are never read.
#[derive(Clone, Copy)]
struct Arrays {
    p: [i16; 9],
    k: [i16; 9],
}

// ACF[0..8] from L_ACF[0..8]. L_ACF[0] is above 0.
fn acf(l_acf: [i32; 9]) -> [i16; 9]
    requires { lt_z (pos 0) (l_acf at 0) ≡ true }
    ensures { result ≡ lpc.ACF l_acf }
{
    let temp = op_shifts::norm(l_acf[0]);
    std::array::from_fn(|i| op_shifts::normalized(temp, l_acf[i]))
}

// K[9 - i] = ACF[i], for i = 1 to 7. K[0] and K[1] are 0.
fn k_start(acf: [i16; 9]) -> [i16; 9]
    ensures { result ≡ K_start acf (replicate 9 (pos 0)) }
{
    std::array::from_fn(|i| if i < 2 { 0 } else { acf[9 - i] })
}

// r[n] from P[0] and P[1].
fn coefficient(p0: i16, p1: i16) -> i16
    ensures { result ≡ lpc.reflection p0 p1 }
{
    let r = op_words::div(op_words::abs(p1), p0);
    if 0 < p1 { op_words::sub(0, r) } else { r }
}

impl Arrays {
    // Step n of the recursion: P and K after it. By value, as the house rules name the form ('Forms').
    fn step(self, n: usize, rn: i16) -> Arrays
        requires { (1 ≤ n) × (n ≤ 8) }
        ensures p { result.p ≡ (PK_loop n rn self.p self.k).0 }
        ensures k { result.k ≡ (PK_loop n rn self.p self.k).1 }
    {
        let Arrays { mut p, mut k } = self;
        p[0] = op_words::add(p[0], op_words::mult_r(p[1], rn));
        for m in 1..9 - n {
            let above = p[m + 1];
            let own = k[9 - m];
            p[m] = op_words::add(above, op_words::mult_r(own, rn));
            k[9 - m] = op_words::add(own, op_words::mult_r(above, rn));
        }
        Arrays { p, k }
    }
}

// The recursion, from L_ACF[0..8]. It stops where P[0] < abs( P[1] ), and goes on at equality. The coefficients from
// the stop on are 0.
pub fn reflection_coefficients(l_acf: [i32; 9]) -> Reflection
    requires { le_z (pos 0) (l_acf at 0) ≡ true }
    ensures r { result.r ≡ lpc.r l_acf }
    ensures ending { ended result.ending ≡ lpc.ending l_acf }
{
    let mut r = [0; 8];
    if l_acf[0] == 0 {
        return Reflection {
            r,
            ending: Ending::Silent,
        };
    }
    let p = acf(l_acf);
    let mut a = Arrays { p, k: k_start(p) };
    for n in 1..9 {
        if a.p[0] < op_words::abs(a.p[1]) {
            return Reflection {
                r,
                ending: Ending::Stopped(n as u8),
            };
        }
        let rn = coefficient(a.p[0], a.p[1]);
        r[n - 1] = rn;
        a = a.step(n, rn);
    }
    Reflection {
        r,
        ending: Ending::Complete,
    }
}
