// 4.2.0 to 4.2.10: what is done once for a frame. From 160 samples it makes the codes of the eight ratios, how the
// recursion ended, and the 160 samples of the short term residual d.
#![tactic(auto)]

ghost use Rattle.std.specs.Prelude.{◌≡◌, true, length};
ghost use Rattle.math_lists.specs.Every.{every};
ghost use Rattle.standard.specs.Lpc.{r, ending, ratio_codes};
ghost use Rattle.standard.specs.Coder.{analysis};
ghost use Rattle.standard.specs.House.{sound_coder};
ghost use Rattle.law_arithmetic.specs.Within.{word};
ghost use Rattle.lpc_reflection.specs.Promise.{ended};
ghost use Rattle.frame_analysis.specs.Whole.{sums, back_again, coder_of};

use lpc_reflection::Ending;
use pre_processing::Kept;

// What the filters keep for the next frame: larpp are the decoded ratios, u the cells of the lattice.
#[derive(Clone, Copy)]
pub struct Filters {
    pub z1: i16,
    pub l_z2: i32,
    pub mp: i16,
    pub larpp: [i16; 8],
    pub u: [i16; 8],
}

// The results of a frame, except d.
#[derive(Clone, Copy)]
pub struct Analysed {
    pub next: Filters,
    pub larc: [i16; 8],
    pub ending: Ending,
}

// The codes of the ratios, and how the recursion that led to them ended.
#[derive(Clone, Copy)]
struct Ratios {
    larc: [i16; 8],
    ending: Ending,
}

// 4.2.4 to 4.2.7. The samples are scaled for the sums, and scaled back afterwards.
fn measured(s: &mut [i16]) -> Ratios
    requires { (length s.old ≡ 160) × (every word s.old ≡ true) }
    ensures larc { result.larc ≡ ratio_codes (r (sums s.old)) }
    ensures ending { ended result.ending ≡ ending (sums s.old) }
    ensures samples { s.new ≡ back_again s.old }
{
    let scale = lpc_autocorrelation::scalauto(s);
    lpc_autocorrelation::scaled(scale, s);
    let found = lpc_reflection::reflection_coefficients(lpc_autocorrelation::l_acf(s));
    lpc_autocorrelation::rescaled(scale, s);
    Ratios {
        larc: lpc_logarea::ratio_codes(found.r),
        ending: found.ending,
    }
}

// A frame, from a sound state. The buffer signal holds s after 4.2.3, and d after 4.2.10.
pub fn frame(m: Filters, sop: &[i16], signal: &mut [i16]) -> Analysed
    requires { (length sop.now ≡ 160) × ((length signal.old ≡ 160) × (sound_coder (coder_of m) ≡ true)) }
    ensures next { coder_of result.next ≡ (analysis (coder_of m) sop.now).next }
    ensures larc { result.larc ≡ (analysis (coder_of m) sop.now).LARc }
    ensures ending { ended result.ending ≡ (analysis (coder_of m) sop.now).ending }
    ensures samples { signal.new ≡ (analysis (coder_of m) sop.now).d }
{
    let mut sof = [0i16; 160];
    let start = Kept {
        z1: m.z1,
        l_z2: m.l_z2,
    };
    let kept = pre_processing::offset(start, sop, &mut sof);
    let mp = pre_processing::emphasis(m.mp, &sof, signal);
    let Ratios { larc, ending } = measured(signal);
    let larpp = short_ratios::ratios(larc);
    let u = short_analysis::filtered(m.u, m.larpp, larpp, signal);
    let next = Filters {
        z1: kept.z1,
        l_z2: kept.l_z2,
        mp,
        larpp,
        u,
    };
    Analysed { next, larc, ending }
}
