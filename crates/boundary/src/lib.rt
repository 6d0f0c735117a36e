// Calls from C and Rust: each passes its arguments to the codec and returns the codec's answer. The states are the
// codec's own; what is an enum or a Result inside is a number here, or a struct with numbers. What encode and decode
// promise here is in specs/Promise.antt, and c/rpeltp.h says all of it to a C programmer. The crate boundary_c exports
// each call to C.
#![tactic(auto)]

ghost use Rattle.std.specs.Prelude.{◌≡◌};
ghost use Rattle.std.proofs.Math.Option.{some};
ghost use Rattle.standard.specs.Alaw.{alaw_samples};
ghost use Rattle.standard.specs.House.{home_coder, home_decoder};
ghost use Rattle.refusals.specs.Numbers.{answered};
ghost use Rattle.lpc_reflection.specs.Promise.{ended};
ghost use Rattle.encoder.specs.Promise as encoded;
ghost use Rattle.encoder.specs.Promise.{coder, mark};
ghost use Rattle.decoder.specs.Promise as decoded;
ghost use Rattle.decoder.specs.Promise.{memory};
ghost use Rattle.packing.specs.Promise.{Packs, Unpacks};
ghost use Rattle.boundary.specs.Promise.{ending_number, mark_number, encode_answer, decode_answer};
ghost use Rattle.boundary.specs.Promise.{Encodes, Decodes, DecodesAlaw};

use decoder::Decoder;
use encoder::{Encoded, Encoder, Ending, Mark};
use refusals::{Refusal, Refused};

// What encode answers: 288 bytes, no padding.
#[repr(C)]
#[derive(Clone, Copy)]
pub struct EncodeAnswer {
    pub state: Encoder,
    pub number: u16,
    pub ending: u16,
    pub marks: [u8; 4],
}

// What decode answers: the state for the next call, and the refusal number, which is 0 where nothing is refused: 278
// bytes, no padding.
#[repr(C)]
#[derive(Clone, Copy)]
pub struct DecodeAnswer {
    pub state: Decoder,
    pub number: u16,
}

// How the recursion ended, as a number. The numbers are C's, so they stand here and not with the type.
#[tactic(auto, unfolding(lpc_reflection::specs::Promise::ended, crate::specs::Promise::ending_number))]
fn ending_number(e: Ending) -> u16
    ensures { result ≡ ending_number (some (ended e)) }
{
    match e {
        Ending::Silent => 1,
        Ending::Complete => 2,
        Ending::Stopped(n) => 16 + u16::from(n),
    }
}

// Whether a lag was found, as a number.
#[tactic(auto, unfolding(encoder::specs::Promise::mark, crate::specs::Promise::mark_number))]
fn mark_number(m: Mark) -> u8
    ensures { result ≡ mark_number (mark m) }
{
    match m {
        Mark::Rule => 1,
        Mark::Found => 2,
    }
}

// The number of what pack and unpack answer.
#[tactic(auto, unfolding(refusals::specs::Numbers::answered))]
fn number(answer: Result<(), Refusal>) -> u16
    ensures { result ≡ answered answer }
{
    match answer {
        Ok(()) => 0,
        Err(refusal) => refusal.into(),
    }
}

// What encode and encode_alaw answer. A refusal has no ending and no marks.
impl From<Result<Encoded, Refused<Encoder>>> for EncodeAnswer {
    ghost from_gives = { λ a c. c ≡ encode_answer (encoded.number a) (coder (encoded.state a))
        (encoded.ending a) (encoded.marks a) };

    fn from(answer: Result<Encoded, Refused<Encoder>>) -> EncodeAnswer {
        match answer {
            Ok(coded) => EncodeAnswer {
                state: coded.state,
                number: 0,
                ending: ending_number(coded.ending),
                marks: coded.marks.map(mark_number),
            },
            Err(refused) => EncodeAnswer {
                state: refused.state,
                number: refused.refusal.into(),
                ending: 0,
                marks: [0; 4],
            },
        }
    }
}

// What decode and decode_alaw answer.
impl From<Result<Decoder, Refused<Decoder>>> for DecodeAnswer {
    ghost from_gives = { λ a c. c ≡ decode_answer (decoded.number a) (memory (decoded.state a)) };

    fn from(answer: Result<Decoder, Refused<Decoder>>) -> DecodeAnswer {
        match answer {
            Ok(state) => DecodeAnswer { state, number: 0 },
            Err(refused) => DecodeAnswer {
                state: refused.state,
                number: refused.refusal.into(),
            },
        }
    }
}

// The encoder at home.
pub fn rpeltp_encoder_home() -> Encoder
    ensures { coder result ≡ home_coder }
{
    Encoder::home()
}

// The decoder at home.
pub fn rpeltp_decoder_home() -> Decoder
    ensures { memory result ≡ home_decoder }
{
    Decoder::home()
}

// 160 samples to 76 codewords.
#[tactic(auto, using(crate::specs::Crossing::encode_crosses))]
pub fn rpeltp_encode(state: Encoder, samples: &[i16], codewords: &mut [i16]) -> EncodeAnswer
    ensures { Encodes state samples.now codewords.old result codewords.new }
{
    state.encode(samples, codewords).into()
}

// 76 codewords to 160 samples.
#[tactic(auto, using(crate::specs::Crossing::decode_crosses))]
pub fn rpeltp_decode(state: Decoder, codewords: &[i16], samples: &mut [i16]) -> DecodeAnswer
    ensures { Decodes state codewords.now samples.old result samples.new }
{
    state.decode(codewords, samples).into()
}

// 160 octets of A-law to 76 codewords.
#[tactic(auto, using(crate::specs::Crossing::encode_crosses))]
pub fn rpeltp_encode_alaw(state: Encoder, octets: &[u8], codewords: &mut [i16]) -> EncodeAnswer
    ensures { Encodes state (alaw_samples octets.now)
        codewords.old result codewords.new }
{
    state.encode_alaw(octets, codewords).into()
}

// 76 codewords to 160 octets of A-law.
#[tactic(auto, using(crate::specs::Crossing::decode_alaw_crosses))]
pub fn rpeltp_decode_alaw(state: Decoder, codewords: &[i16], octets: &mut [u8]) -> DecodeAnswer
    ensures { DecodesAlaw state codewords.now octets.old result octets.new }
{
    state.decode_alaw(codewords, octets).into()
}

// 76 codewords to 33 bytes: the refusal number, which is 0 where nothing is refused.
pub fn rpeltp_pack(codewords: &[i16], bytes: &mut [u8]) -> u16
    ensures { Packs codewords.now bytes.old result bytes.new }
{
    number(packing::pack(codewords, bytes))
}

// 33 bytes to 76 codewords: the refusal number, which is 0 where nothing is refused.
pub fn rpeltp_unpack(bytes: &[u8], codewords: &mut [i16]) -> u16
    ensures { Unpacks bytes.now codewords.old result codewords.new }
{
    number(packing::unpack(bytes, codewords))
}
