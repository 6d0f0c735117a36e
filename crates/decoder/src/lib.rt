// The decoder: its state, home, and decode, which is the whole of 4.3 behind the refusals of the house rules
// ('Refusals'); and decode_alaw, which leaves octets. What both promise is in specs/Promise.antt.
#![tactic(auto)]

ghost use Rattle.std.specs.Prelude.{◌≡◌, true, length};
ghost use Rattle.standard.specs.LongTerm.{is_lag};
ghost use Rattle.standard.specs.Frame.{received};
ghost use Rattle.standard.specs.Decoder as standard;
ghost use Rattle.standard.specs.House.{home_decoder, sound_decoder};
ghost use Rattle.decoder.specs.Promise.{memory, Decodes, DecodesAlaw};

use refusals::{Refusal, Refused};
use short_synthesis::Cells;

// 4.3: what is kept for the next frame. drp holds the residual's last 120 samples, the oldest first; nrp is the
// remembered lag. A caller in C has the same struct.
#[repr(C)]
#[derive(Clone, Copy)]
pub struct Decoder {
    pub drp: [i16; 120],
    pub nrp: i16,
    pub larpp: [i16; 8],
    pub v: [i16; 8],
    pub msr: i16,
}

// 4.3, the whole: from 76 codewords to 160 samples, with the new state.
fn frame(m: Decoder, codewords: &[i16], samples: &mut [i16]) -> Decoder
    requires { (length codewords.now ≡ 76) × ((length samples.old ≡ 160) × (is_lag m.nrp ≡ true)) }
    ensures state { memory result ≡ (standard.decoded (memory m) (received codewords.now)).0 }
    ensures samples { samples.new
        ≡ (standard.decoded (memory m) (received codewords.now)).1 }
{
    let Decoder {
        drp,
        nrp,
        larpp: before,
        v,
        msr,
    } = m;
    let mut drp = long_history::remembered(drp);
    let nrp = frame_received::decoded(nrp, codewords, &mut drp);
    let larpp = short_ratios::ratios(frame_codewords::larc_valid(&codewords[0..8]));
    let Cells { v, msr } = frame_speech::frame(
        Cells { v, msr },
        before,
        larpp,
        &drp[120..],
        samples,
    );
    Decoder {
        drp: long_history::last(&drp[160..]),
        nrp,
        larpp,
        v,
        msr,
    }
}

impl Decoder {
    // House rules, 'Home': every carried value is 0, and the remembered lag is 40 (4.3.2).
    #[tactic(auto, unfolding(crate::specs::Promise::memory, standard::specs::House::home_decoder))]
    pub fn home() -> Decoder
        ensures { memory result ≡ home_decoder }
    {
        Decoder {
            drp: [0; 120],
            nrp: 40,
            larpp: [0; 8],
            v: [0; 8],
            msr: 0,
        }
    }

    // House rules, 'Soundness': the remembered lag is from 40 to 120.
    fn sound(self) -> bool
        ensures { result ≡ sound_decoder (memory self) }
    {
        long_filter::is_lag(self.nrp)
    }

    // The 160 samples of 76 codewords, of which only valid bits are used, and the state for the next call.
    pub fn decode(self, codewords: &[i16], samples: &mut [i16]) -> Result<Decoder, Refused<Decoder>>
        ensures { Decodes self codewords.now samples.old result samples.new }
    {
        if samples.len() != 160 {
            return Err(Refusal::Samples.with(self));
        }
        if codewords.len() != 76 {
            return Err(Refusal::Codewords.with(self));
        }
        if !self.sound() {
            return Err(Refusal::State.with(self));
        }
        Ok(frame(self, codewords, samples))
    }

    // The same with 160 octets of A-law in the place of the samples. A refusal leaves the octets as they were.
    pub fn decode_alaw(
        self,
        codewords: &[i16],
        octets: &mut [u8],
    ) -> Result<Decoder, Refused<Decoder>>
        ensures { DecodesAlaw self codewords.now octets.old result octets.new }
    {
        if octets.len() != 160 {
            return Err(Refusal::Samples.with(self));
        }
        let mut samples = [0; 160];
        let state = self.decode(codewords, &mut samples)?;
        pcm_alaw::octets(&samples, octets);
        Ok(state)
    }
}
