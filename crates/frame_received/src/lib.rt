// 4.3.1, 4.3.2: from a frame's codewords to its reconstructed samples drp. One buffer holds the history and, after it,
// the samples that the four sub-frames add. Within a frame nothing is moved.
#![tactic(auto)]

ghost use Rattle.std.specs.Prelude.{◌≡◌, true, length, take, drop};
ghost use Rattle.standard.specs.LongTerm.{is_lag};
ghost use Rattle.frame_received.specs.Received.{sub_lag, sub_extended, frame_lag, frame_extended};

// One sub-frame: makes the 40 samples that follow the 120 of the history, and returns the lag in use.
fn sub_decoded(nrp: i16, c: &[i16], drp: &mut [i16]) -> i16
    requires { (length c.now ≡ 17) × ((length drp.old ≡ 160) × (is_lag nrp ≡ true)) }
    ensures lag { result ≡ sub_lag (take 120 drp.old) nrp c.now }
    ensures samples { drp.new ≡ sub_extended (take 120 drp.old) nrp c.now }
{
    let v = frame_codewords::sub_valid(c);
    let [ncr, bcr, mcr, xmaxcr, ..] = v;
    let mut xmcr = [0i16; 13];
    xmcr.copy_from_slice(&v[4..]);
    let xmp = rpe_inverse::inverse(xmaxcr, xmcr);
    let ep = rpe_inverse::positioned(op_words::place_of(mcr), xmp);
    let lag = long_filter::used_lag(nrp, ncr);
    let dpp = long_filter::estimate(
        &drp[0..120],
        op_words::place_of(lag),
        op_words::place_of(bcr),
    );
    long_filter::reconstructed(ep, dpp, &mut drp[120..160]);
    lag
}

// The four sub-frames, each after the samples of the one before. Returns the last lag in use.
pub fn decoded(nrp: i16, c: &[i16], drp: &mut [i16]) -> i16
    requires { (length c.now ≡ 76) × ((length drp.old ≡ 280) × (is_lag nrp ≡ true)) }
    ensures lag { result ≡ frame_lag (take 120 drp.old) nrp c.now }
    ensures samples { drp.new ≡ frame_extended (take 120 drp.old) nrp c.now }
{
    let first = sub_decoded(nrp, &c[8..25], &mut drp[0..160]);
    let second = sub_decoded(first, &c[25..42], &mut drp[40..200]);
    let third = sub_decoded(second, &c[42..59], &mut drp[80..240]);
    sub_decoded(third, &c[59..76], &mut drp[120..280])
}
