// A-law (request W-204; house rules, 'A-law'): the 13-bit value of a code, the code of a value, the samples that octets
// stand for, and the octets of samples.
#![tactic(auto)]

ghost use Rattle.std.specs.Prelude.{◌≡◌, ◌<◌, length};
ghost use Rattle.standard.specs.Alaw.{expanded, placed, compressed, alaw_samples, alaw_octets};
ghost use Rattle.pcm_alaw.specs.Rules.{counted};

// The value of each code. One computed test over the whole table shows that it obeys the rule (proofs/expand).
static EXPANDED: [i16; 256] = [
    -688, -656, -752, -720, -560, -528, -624, -592, -944, -912, -1008, -976, -816, -784, -880,
    -848, -344, -328, -376, -360, -280, -264, -312, -296, -472, -456, -504, -488, -408, -392, -440,
    -424, -2752, -2624, -3008, -2880, -2240, -2112, -2496, -2368, -3776, -3648, -4032, -3904,
    -3264, -3136, -3520, -3392, -1376, -1312, -1504, -1440, -1120, -1056, -1248, -1184, -1888,
    -1824, -2016, -1952, -1632, -1568, -1760, -1696, -43, -41, -47, -45, -35, -33, -39, -37, -59,
    -57, -63, -61, -51, -49, -55, -53, -11, -9, -15, -13, -3, -1, -7, -5, -27, -25, -31, -29, -19,
    -17, -23, -21, -172, -164, -188, -180, -140, -132, -156, -148, -236, -228, -252, -244, -204,
    -196, -220, -212, -86, -82, -94, -90, -70, -66, -78, -74, -118, -114, -126, -122, -102, -98,
    -110, -106, 688, 656, 752, 720, 560, 528, 624, 592, 944, 912, 1008, 976, 816, 784, 880, 848,
    344, 328, 376, 360, 280, 264, 312, 296, 472, 456, 504, 488, 408, 392, 440, 424, 2752, 2624,
    3008, 2880, 2240, 2112, 2496, 2368, 3776, 3648, 4032, 3904, 3264, 3136, 3520, 3392, 1376, 1312,
    1504, 1440, 1120, 1056, 1248, 1184, 1888, 1824, 2016, 1952, 1632, 1568, 1760, 1696, 43, 41, 47,
    45, 35, 33, 39, 37, 59, 57, 63, 61, 51, 49, 55, 53, 11, 9, 15, 13, 3, 1, 7, 5, 27, 25, 31, 29,
    19, 17, 23, 21, 172, 164, 188, 180, 140, 132, 156, 148, 236, 228, 252, 244, 204, 196, 220, 212,
    86, 82, 94, 90, 70, 66, 78, 74, 118, 114, 126, 122, 102, 98, 110, 106,
];

// The 13-bit value of a code.
pub fn expand(code: u8) -> i16
    ensures { result ≡ expanded code }
{
    EXPANDED[usize::from(code)]
}

// Segment and step of a value of 12 bits. Each segment s lies on a line with one step for each 2^s values. At every
// value the line of its own segment is the least of the seven lines, so the segment need not be searched for. Segments
// 0 and 1 lie on one line.
fn placed(n: u16) -> u8
    requires { n < 4096 }
    ensures is { result ≡ placed n }
    ensures below { result < 128 }
{
    let low = (n / 2).min(n / 4 + 16).min(n / 8 + 32);
    let high = (n / 32 + 64).min(n / 64 + 80).min(n / 128 + 96);
    low.min(n / 16 + 48).min(high) as u8
}

// The number that is taken for v: -v - 1, which is `!v`, if v is negative, else v itself.
fn counted(v: i16) -> u16
    ensures { result ≡ counted v }
{
    if v < 0 { !v as u16 } else { v as u16 }
}

// The code of a value: its segment and step, the top bit set unless the value is negative, the even bits inverted. A
// value beyond 13 bits has the code of the nearest end of the range.
pub fn compress(v: i16) -> u8
    ensures { result ≡ compressed v }
{
    let c = placed(counted(v).min(4095));
    if v < 0 { c ^ 0x55 } else { (128 + c) ^ 0x55 }
}

// The samples that octets stand for: 8 times the 13-bit values. The writes go by index: of a slice that is written
// through `iter_mut().zip(..)` a proof knows only the length afterwards.
pub fn samples(octets: &[u8], samples: &mut [i16])
    requires { length samples.old ≡ length octets.now }
    ensures { samples.new ≡ alaw_samples octets.now }
{
    for (i, &octet) in octets.iter().enumerate() {
        samples[i] = expand(octet) * 8;
    }
}

// The octets of output samples.
pub fn octets(samples: &[i16], octets: &mut [u8])
    requires { length octets.old ≡ length samples.now }
    ensures { octets.new ≡ alaw_octets samples.now }
{
    for (i, &sample) in samples.iter().enumerate() {
        octets[i] = compress(sample >> 3);
    }
}
