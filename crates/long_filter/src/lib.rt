// 4.2.12, 4.2.18, 4.3.2, long term filtering: the lag in use, the estimate from the history, the residual, and the
// samples that a sub-frame adds to the history.
#![tactic(auto)]

ghost use Rattle.std.specs.Prelude.{◌≡◌, ◌≤◌, length};
ghost use mathlib.Core.List.{zip_with};
ghost use Rattle.standard.specs.Arithmetic.{add};
ghost use Rattle.standard.specs.LongTerm.{is_lag, dpp, residual};
ghost use Rattle.standard.specs.Decoder.{Nr};

// 4.2.11, 4.3.2: whether a lag is from 40 to 120.
pub fn is_lag(lag: i16) -> bool
    ensures { result ≡ is_lag lag }
{
    (40..=120).contains(&lag)
}

// 4.3.2: the received lag if it is from 40 to 120, else the remembered one.
pub fn used_lag(nrp: i16, ncr: i16) -> i16
    ensures { result ≡ Nr nrp ncr }
{
    if is_lag(ncr) { ncr } else { nrp }
}

// 4.2.12: the estimate dpp, from the last 120 samples and a gain code. With a lag of 40 or more it needs no sample of
// this sub-frame.
pub fn estimate(dp: &[i16], lag: usize, bc: usize) -> [i16; 40]
    requires { (length dp.now ≡ 120) × ((40 ≤ lag) × (lag ≤ 120)) }
    ensures { result ≡ dpp lag bc dp.now }
{
    let b = op_tables::gain_qlb(bc);
    let from = &dp[120 - lag..160 - lag];
    std::array::from_fn(|k| op_words::mult_r(b, from[k]))
}

// 4.2.12: the long term residual e, which is d less its estimate.
pub fn residual(d: &[i16], dpp: [i16; 40]) -> [i16; 40]
    requires { length d.now ≡ 40 }
    ensures { result ≡ residual d.now dpp }
{
    std::array::from_fn(|k| op_words::sub(d[k], dpp[k]))
}

// 4.2.18: the 40 samples that a sub-frame adds to the history: the pulses plus the estimate.
pub fn reconstructed(ep: [i16; 40], dpp: [i16; 40], new: &mut [i16])
    requires { length new.old ≡ 40 }
    ensures { new.new ≡ zip_with add ep dpp }
{
    let sums: [i16; 40] = std::array::from_fn(|k| op_words::add(ep[k], dpp[k]));
    new.copy_from_slice(&sums);
}
