// 4.2.11 to 4.2.18: one sub-frame, from 40 samples of d to its 17 codewords and to the samples that it adds to the
// history.
#![tactic(auto)]

ghost use Rattle.std.specs.Prelude.{◌≡◌, ◌≤◌, ◌∷◌, pos, length};
ghost use Rattle.std.specs.Int.Signed.{lt_z};
ghost use Rattle.standard.specs.Frame.{sub_words};
ghost use Rattle.standard.specs.LongTerm.{Nc};
ghost use Rattle.standard.specs.Rpe.{Mc};
ghost use Rattle.frame_subframe.specs.Whole.{block_code, pulse_codes, made, extended};

use long_search::Search;

// 4.2.14, 4.2.15: the grid, the block amplitude's code and those of the pulses.
#[derive(Clone, Copy)]
struct Choice {
    mc: usize,
    xmaxc: i16,
    xmc: [i16; 13],
}

fn selected(x: [i16; 40]) -> Choice
    ensures mc { result.mc ≡ Mc x }
    ensures xmaxc { result.xmaxc ≡ block_code x }
    ensures xmc { result.xmc ≡ pulse_codes x }
{
    let mc = rpe_weighting::mc(x);
    let xm = rpe_weighting::grid(mc, x);
    let xmaxc = rpe_quantise::xmaxc(op_sums::peak(&xm[0..13]));
    Choice {
        mc,
        xmaxc,
        xmc: rpe_quantise::pulse_codes(xmaxc, xm),
    }
}

// Stores the 17 codewords in order: the lag, the gain's code, and what was selected.
fn written(lag: i16, bc: i16, choice: Choice, c: &mut [i16])
    requires { (length c.old ≡ 17) × (choice.mc ≤ 3) }
    ensures { c.new ≡ lag ∷ bc ∷ pos choice.mc ∷ choice.xmaxc ∷ choice.xmc }
{
    c[..4].copy_from_slice(&[lag, bc, choice.mc as i16, choice.xmaxc]);
    c[4..].copy_from_slice(&choice.xmc);
}

// One sub-frame. dp holds the last 120 samples of the history, and after them 40 entries for what the sub-frame adds.
// c is the buffer for its 17 codewords.
pub fn sub_coded(d: &[i16], dp: &mut [i16], c: &mut [i16]) -> Search
    requires { (length d.now ≡ 40) × ((length dp.old ≡ 160) × (length c.old ≡ 17)) }
    ensures lag { result.lag ≡ Nc (made dp.old d.now).search }
    ensures sum { result.sum ≡ (made dp.old d.now).search.sum }
    ensures positive { result.positive ≡ lt_z (pos 0) (made dp.old d.now).search.sum }
    ensures codewords { c.new ≡ sub_words (made dp.old d.now).codes }
    ensures history { dp.new ≡ extended dp.old d.now }
{
    let found = long_search::lag_and_gain(d, &dp[0..120]);
    let dpp = long_filter::estimate(&dp[0..120], found.search.lag, found.bc);
    let e = long_filter::residual(d, dpp);
    let choice = selected(rpe_weighting::weighted(e));
    written(found.search.lag as i16, found.bc as i16, choice, c);
    let xmp = rpe_inverse::inverse(choice.xmaxc, choice.xmc);
    let ep = rpe_inverse::positioned(choice.mc, xmp);
    long_filter::reconstructed(ep, dpp, &mut dp[120..160]);
    found.search
}
