// 4.2.6, 4.2.7: from the reflection coefficients to the Log.-Area Ratios and their codes.
#![tactic(auto)]

ghost use Rattle.std.specs.Prelude.{◌≡◌, ◌<◌};
ghost use Rattle.standard.specs.Lpc.{area_ratio, LAR, LARc, ratio_codes};

// 4.2.6: the piecewise line, for an absolute value.
fn area_ratio(temp: i16) -> i16
    ensures { result ≡ area_ratio temp }
{
    if temp < 22118 {
        temp >> 1
    } else if temp < 31130 {
        op_words::sub(temp, 11059)
    } else {
        op_words::sub(temp, 26112) << 2
    }
}

// 4.2.6: LAR[i] from r[i].
fn lar(r: i16) -> i16
    ensures { result ≡ LAR r }
{
    let temp = area_ratio(op_words::abs(r));
    if r < 0 { op_words::sub(0, temp) } else { temp }
}

// 4.2.7: LARc[i + 1] from LAR[i + 1].
fn larc(i: usize, lar: i16) -> i16
    requires { i < 8 }
    ensures { result ≡ LARc i lar }
{
    let scaled = op_words::add(
        op_words::mult(op_tables::lar_a(i), lar),
        op_tables::lar_b(i),
    );
    let temp = op_words::add(scaled, 256) >> 9;
    let mic = op_tables::lar_mic(i);
    op_words::sub(temp.clamp(mic, op_tables::lar_mac(i)), mic)
}

// 4.2.6, 4.2.7: LARc[1..8] from r[1..8].
pub fn ratio_codes(r: [i16; 8]) -> [i16; 8]
    ensures { result ≡ ratio_codes r }
{
    std::array::from_fn(|i| larc(i, lar(r[i])))
}
