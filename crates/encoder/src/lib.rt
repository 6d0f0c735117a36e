// The encoder: its state, home, and encode, which is the whole of 4.2 behind the refusals of the house rules
// ('Refusals'); and encode_alaw, which takes octets. What both promise is in specs/Promise.antt.
#![tactic(auto)]

ghost use Rattle.std.specs.Prelude.{◌≡◌, true, cond, ◌++◌, ◌*◌, ◌≤◌, length, take, map};
ghost use Rattle.std.proofs.Math.Option.{some};
ghost use Rattle.standard.specs.Frame.{sub_words, words};
ghost use Rattle.standard.specs.Alaw.{alaw_samples};
ghost use Rattle.standard.specs.Coder as standard;
ghost use Rattle.standard.specs.House as house;
ghost use Rattle.lpc_reflection.specs.Promise.{ended};
ghost use Rattle.frame_subframe.specs.Whole.{added};
ghost use Rattle.encoder.specs.Promise.{coder, mark, Encodes};
ghost use Rattle.math_lists.specs.Parts.{put};
ghost use Rattle.encoder.specs.Subframes.{own, before, four_added, four_words, four_marks};
ghost use Rattle.encoder.specs.Whole.{coded_marks};

use frame_analysis::Filters;
pub use lpc_reflection::Ending;
use pre_processing::Kept;
use refusals::{Refusal, Refused};

// 4.2: what is kept for the next frame. dp holds the residual's last 120 samples, the oldest first. A caller in C has
// the same struct: the widest value stands first, so that it has no padding.
#[repr(C)]
#[derive(Clone, Copy)]
pub struct Encoder {
    pub l_z2: i32,
    pub z1: i16,
    pub mp: i16,
    pub larpp: [i16; 8],
    pub u: [i16; 8],
    pub dp: [i16; 120],
}

// Whether a lag was found, or is the lag 40 that the search started with (house rules, 'Marks').
#[derive(Clone, Copy, PartialEq, Eq, Debug)]
pub enum Mark {
    Rule,
    Found,
}

// What a frame gives beside its codewords: the state for the next call, how the recursion ended (house rules,
// 'Endings'), and the marks of the four sub-frames.
#[derive(Clone, Copy)]
pub struct Encoded {
    pub state: Encoder,
    pub ending: Ending,
    pub marks: [Mark; 4],
}

// House rules, 'Marks' (request W-203): a lag is found when some lag had a positive sum.
#[tactic(auto, unfolding(crate::specs::Promise::mark))]
fn marked(positive: bool) -> Mark
    ensures { mark result ≡ some (cond positive house.found house.rule) }
{
    if positive { Mark::Found } else { Mark::Rule }
}

// Sub-frame n, from 0 to 3, with its mark. It is passed all of d and of the history. It reads its own 40 samples of d
// and the 120 of dp before them, and adds 40 to dp.
fn sub_frame(n: usize, d: &[i16], dp: &mut [i16], c: &mut [i16]) -> Mark
    requires { ((n ≤ 3) × (length d.now ≡ 160)) × ((length dp.old ≡ 280) × (length c.old ≡ 17)) }
    ensures mark { mark result
        ≡ some (house.mark (standard.sub_coded (before n dp.old) (own n d.now))) }
    ensures codewords { c.new
        ≡ sub_words (standard.sub_coded (before n dp.old) (own n d.now)).codes }
    ensures history { dp.new
        ≡ put (40 * n) 160 dp.old
        (before n dp.old ++ added (before n dp.old) (own n d.now)) }
{
    let a = 40 * n;
    let search = frame_subframe::sub_coded(&d[a..a + 40], &mut dp[a..a + 160], c);
    marked(search.positive)
}

// The four sub-frames. Each goes on from what dp holds by then, and is passed the 17 codewords that it fills: four
// calls and no loop, so that each range stands here.
fn sub_frames(d: &[i16], dp: &mut [i16], codewords: &mut [i16]) -> [Mark; 4]
    requires { (length d.now ≡ 160) × ((length dp.old ≡ 280) × (length codewords.old ≡ 76)) }
    ensures marks { map mark result ≡ four_marks (take 120 dp.old) d.now }
    ensures codewords { codewords.new
        ≡ take 8 codewords.old ++ four_words (take 120 dp.old) d.now }
    ensures history { dp.new ≡ four_added (take 120 dp.old) d.now }
{
    let first = sub_frame(0, d, dp, &mut codewords[8..25]);
    let second = sub_frame(1, d, dp, &mut codewords[25..42]);
    let third = sub_frame(2, d, dp, &mut codewords[42..59]);
    let fourth = sub_frame(3, d, dp, &mut codewords[59..76]);
    [first, second, third, fourth]
}

// 4.2, the whole: from 160 samples to 76 codewords. LARc[1..8] are the first eight of them.
fn frame(e: Encoder, samples: &[i16], codewords: &mut [i16]) -> Encoded
    requires { (length samples.now ≡ 160)
        × ((length codewords.old ≡ 76) × (house.sound_coder (coder e) ≡ true)) }
    ensures state { coder result.state ≡ (standard.coded (coder e) samples.now).0 }
    ensures ending { ended result.ending ≡ (standard.coded (coder e) samples.now).1.ending }
    ensures marks { map mark result.marks ≡ coded_marks (coder e) samples.now }
    ensures codewords { codewords.new
        ≡ words (standard.frame (standard.coded (coder e) samples.now).1) }
{
    let Encoder {
        l_z2,
        z1,
        mp,
        larpp,
        u,
        dp,
    } = e;
    let mut d = [0; 160];
    let a = frame_analysis::frame(
        Filters {
            z1,
            l_z2,
            mp,
            larpp,
            u,
        },
        samples,
        &mut d,
    );
    codewords[..8].copy_from_slice(&a.larc);
    let mut dp = long_history::remembered(dp);
    let marks = sub_frames(&d, &mut dp, codewords);
    let Filters {
        z1,
        l_z2,
        mp,
        larpp,
        u,
    } = a.next;
    Encoded {
        state: Encoder {
            l_z2,
            z1,
            mp,
            larpp,
            u,
            dp: long_history::last(&dp[160..]),
        },
        ending: a.ending,
        marks,
    }
}

impl Encoder {
    // House rules, 'Home': every carried value is 0.
    #[tactic(auto, unfolding(crate::specs::Promise::coder, standard::specs::House::home_coder))]
    pub fn home() -> Encoder
        ensures { coder result ≡ house.home_coder }
    {
        Encoder {
            z1: 0,
            l_z2: 0,
            mp: 0,
            larpp: [0; 8],
            u: [0; 8],
            dp: [0; 120],
        }
    }

    // House rules, 'Soundness': what the offset filter keeps is in its ranges.
    fn sound(self) -> bool
        ensures { result ≡ house.sound_coder (coder self) }
    {
        pre_processing::sound(Kept {
            z1: self.z1,
            l_z2: self.l_z2,
        })
    }

    // The 76 codewords of 160 samples, of which the low 3 bits are ignored.
    pub fn encode(self, samples: &[i16], codewords: &mut [i16]) -> Result<Encoded, Refused<Encoder>>
        ensures { Encodes self samples.now codewords.old result codewords.new }
    {
        if samples.len() != 160 {
            return Err(Refusal::Samples.with(self));
        }
        if codewords.len() != 76 {
            return Err(Refusal::Codewords.with(self));
        }
        if !self.sound() {
            return Err(Refusal::State.with(self));
        }
        Ok(frame(self, samples, codewords))
    }

    // The same for 160 octets of A-law: encode of the samples that they stand for.
    pub fn encode_alaw(
        self,
        octets: &[u8],
        codewords: &mut [i16],
    ) -> Result<Encoded, Refused<Encoder>>
        ensures { Encodes self (alaw_samples octets.now)
            codewords.old result codewords.new }
    {
        if octets.len() != 160 {
            return Err(Refusal::Samples.with(self));
        }
        let mut samples = [0; 160];
        pcm_alaw::samples(octets, &mut samples);
        self.encode(&samples, codewords)
    }
}
