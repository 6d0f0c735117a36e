// What a C program links with: each call of boundary under its name, with the same clauses. c/rpeltp.h explains them.
#![tactic(auto)]

ghost use Rattle.std.specs.Prelude.{◌≡◌};
ghost use Rattle.standard.specs.Alaw.{alaw_samples};
ghost use Rattle.standard.specs.House.{home_coder, home_decoder};
ghost use Rattle.encoder.specs.Promise.{coder};
ghost use Rattle.decoder.specs.Promise.{memory};
ghost use Rattle.packing.specs.Promise.{Packs, Unpacks};
ghost use Rattle.boundary.specs.Promise.{Encodes, Decodes, DecodesAlaw};

use boundary::{DecodeAnswer, EncodeAnswer};
use decoder::Decoder;
use encoder::Encoder;

// The encoder at home.
#[unsafe(no_mangle)]
pub extern "C" fn rpeltp_encoder_home() -> Encoder
    ensures { coder result ≡ home_coder }
{
    boundary::rpeltp_encoder_home()
}

// The decoder at home.
#[unsafe(no_mangle)]
pub extern "C" fn rpeltp_decoder_home() -> Decoder
    ensures { memory result ≡ home_decoder }
{
    boundary::rpeltp_decoder_home()
}

// 160 samples to 76 codewords.
#[unsafe(no_mangle)]
pub extern "C" fn rpeltp_encode(
    state: Encoder,
    samples: &[i16],
    codewords: &mut [i16],
) -> EncodeAnswer
    ensures { Encodes state samples.now codewords.old result codewords.new }
{
    boundary::rpeltp_encode(state, samples, codewords)
}

// 76 codewords to 160 samples.
#[unsafe(no_mangle)]
pub extern "C" fn rpeltp_decode(
    state: Decoder,
    codewords: &[i16],
    samples: &mut [i16],
) -> DecodeAnswer
    ensures { Decodes state codewords.now samples.old result samples.new }
{
    boundary::rpeltp_decode(state, codewords, samples)
}

// 160 octets of A-law to 76 codewords.
#[unsafe(no_mangle)]
pub extern "C" fn rpeltp_encode_alaw(
    state: Encoder,
    octets: &[u8],
    codewords: &mut [i16],
) -> EncodeAnswer
    ensures { Encodes state (alaw_samples octets.now)
        codewords.old result codewords.new }
{
    boundary::rpeltp_encode_alaw(state, octets, codewords)
}

// 76 codewords to 160 octets of A-law.
#[unsafe(no_mangle)]
pub extern "C" fn rpeltp_decode_alaw(
    state: Decoder,
    codewords: &[i16],
    octets: &mut [u8],
) -> DecodeAnswer
    ensures { DecodesAlaw state codewords.now octets.old result octets.new }
{
    boundary::rpeltp_decode_alaw(state, codewords, octets)
}

// 76 codewords to 33 bytes: the refusal number, which is 0 where nothing is refused.
#[unsafe(no_mangle)]
pub extern "C" fn rpeltp_pack(codewords: &[i16], bytes: &mut [u8]) -> u16
    ensures { Packs codewords.now bytes.old result bytes.new }
{
    boundary::rpeltp_pack(codewords, bytes)
}

// 33 bytes to 76 codewords: the refusal number, which is 0 where nothing is refused.
#[unsafe(no_mangle)]
pub extern "C" fn rpeltp_unpack(bytes: &[u8], codewords: &mut [i16]) -> u16
    ensures { Unpacks bytes.now codewords.old result codewords.new }
{
    boundary::rpeltp_unpack(bytes, codewords)
}
