// 4.2.10: short term analysis filtering. The standard takes each sample through the eight sections. A section needs
// nothing from a later section. So here each section takes all 160 samples, and the compiler can compute several at
// once.
#![tactic(auto)]

ghost use Rattle.std.specs.Prelude.{◌<◌, ◌≡◌, true, pos, length, drop};
ghost use mathlib.Core.List.{◌∷◌, zip};
ghost use Rattle.math_lists.specs.Every.{every};
ghost use Rattle.math_lists.specs.Scan.{run};
ghost use Rattle.standard.specs.Arithmetic.{mult_r};
ghost use Rattle.standard.specs.Tables.{◌at◌};
ghost use Rattle.standard.specs.ShortTerm.{coefficients, analysed};
ghost use Rattle.short_ratios.specs.Bounds.{factor};
ghost use Rattle.short_analysis.specs.Sections.{own_of, further, saved, stage};

// A coefficient's product as a word of 16 bits.
fn product(rp: i16, x: i16) -> i16
    requires { factor rp ≡ true }
    ensures { result ≡ mult_r rp x }
{
    short_ratios::term(rp as i32, x as i32) as i16
}

// Section i's coefficient at each of the 160 samples, from the eight coefficients of each stretch.
fn own(i: usize, stretches: &[[i16; 8]; 4], rp: &mut [i16])
    requires { (i < 8) × (length rp.old ≡ 160) }
    ensures { rp.new ≡ own_of stretches.now i }
{
    rp[0..13].fill(stretches[0][i]);
    rp[13..27].fill(stretches[1][i]);
    rp[27..40].fill(stretches[2][i]);
    rp[40..160].fill(stretches[3][i]);
}

// One section over the 160 samples: di and sav become those that it gives to the next section. rp has its coefficient
// at each sample, prev its cell. The loop keeps its index k: the check does not cover a `zip` of two `iter_mut` yet.
fn section(rp: &[i16], prev: &[i16], di: &mut [i16], sav: &mut [i16])
    requires { ((length rp.now ≡ 160) × (length prev.now ≡ 160))
        × ((length di.old ≡ 160) × ((length sav.old ≡ 160) × (every factor rp.now ≡ true))) }
    ensures di { di.new ≡ further rp.now prev.now di.old }
    ensures sav { sav.new ≡ saved rp.now prev.now di.old }
{
    for k in 0..160usize {
        let r = rp[k];
        let p = prev[k];
        let d = di[k];
        let out = op_words::add(d, product(r, p));
        di[k] = out;
        sav[k] = op_words::add(p, product(r, d));
    }
}

// A section over the 160 samples, from its coefficient at each sample and its cell u. At a sample the cell holds the
// sav of the sample before; at the first sample it holds u. So u is stored before the 160 sav that come in, at p[0],
// and no sample is moved. The sav that go out stand in q in the same way, for the next section. The result is the new
// cell, the last sav in p.
fn stage(rp: &[i16], u: i16, p: &mut [i16], di: &mut [i16], q: &mut [i16]) -> i16
    requires { ((length rp.now ≡ 160) × (length p.old ≡ 161))
        × ((length di.old ≡ 160) × ((length q.old ≡ 161) × (every factor rp.now ≡ true))) }
    ensures p { p.new ≡ u ∷ drop 1 p.old }
    ensures di { di.new
        ≡ (stage 159 (di.old, drop 1 p.old) (rp.now, u)).0.0 }
    ensures q { q.new
        ≡ (q.old at 0) ∷ (stage 159 (di.old, drop 1 p.old) (rp.now, u)).0.1 }
    ensures u { result ≡ (stage 159 (di.old, drop 1 p.old) (rp.now, u)).1 }
{
    p[0] = u;
    section(rp, &p[0..160], di, &mut q[1..161]);
    p[160]
}

// sav starts with the same samples as di. They stand from index 1 on; index 0 is for a cell.
fn after_cell(s: &[i16]) -> [i16; 161]
    requires { length s.now ≡ 160 }
    ensures { result ≡ pos 0 ∷ s.now }
{
    let mut p = [0i16; 161];
    p[1..161].copy_from_slice(s);
    p
}

// The 160 samples of s become those of d. u[0..7] are the cells, old and new the ratios of the frame before and of this
// one. An iteration of the loop is two sections: the first takes sav from p to q, the second back to p.
pub fn filtered(u: [i16; 8], old: [i16; 8], new: [i16; 8], s: &mut [i16]) -> [i16; 8]
    requires { length s.old ≡ 160 }
    ensures u { result ≡ (run analysed u (zip (coefficients old new) s.old)).0 }
    ensures d { s.new ≡ (run analysed u (zip (coefficients old new) s.old)).1 }
{
    // Four calls, and not `from_fn`: where the compiler knows the stretch, the encoder is 3 % faster.
    let stretches = [
        short_ratios::coefficients(0, old, new),
        short_ratios::coefficients(1, old, new),
        short_ratios::coefficients(2, old, new),
        short_ratios::coefficients(3, old, new),
    ];
    let mut p = after_cell(s);
    let mut q = [0i16; 161];
    let mut rp = [0i16; 160];
    let mut kept = [0i16; 8];
    for j in 0..4usize {
        let i = 2 * j;
        let k = i + 1;
        own(i, &stretches, &mut rp);
        kept[i] = stage(&rp, u[i], &mut p, s, &mut q);
        own(k, &stretches, &mut rp);
        kept[k] = stage(&rp, u[k], &mut q, s, &mut p);
    }
    kept
}
