// Decodes a file of codewords in the form of annex A3 to a file of A-law octets, from home.
#![tactic(auto)]

ghost use Rattle.std.specs.Prelude.{◌-◌, ◌^◌};
ghost use Rattle.std.proofs.Common.{rules};
ghost use Rattle.standard.specs.Decoder as standard;
ghost use Rattle.decoder.specs.Promise.{memory};
ghost use Rattle.decode_alaw.specs.Frame.{decoded};

use decoder::Decoder;
use io_coding::FrameCoder;

// The decoder, as it takes codewords in the form of a file and gives A-law octets.
#[derive(Clone, Copy)]
struct FileDecoder(Decoder);

impl FrameCoder for FileDecoder {
    // 76 codewords in, 160 octets out.
    const BYTES_IN: usize = 152;

    const BYTES_OUT: usize = 160;

    ghost BYTES_IN = { 152 };

    ghost BYTES_OUT = { 160 };

    ghost State = { standard.Decoder };

    ghost state = { λ d. memory d.0 };

    ghost step = { decoded };

    ghost limit = { λ _. 2 ^ 64 - 1 };

    ghost some_bytes = { Prim.search rules };

    fn frame(&mut self, bytes: &[u8], out: &mut [u8]) -> usize {
        let mut codewords = [0; 76];
        io_files::from_bytes(bytes, &mut codewords);
        let mut octets = [0; 160];
        self.0 = match self.0.decode_alaw(&codewords, &mut octets) {
            Ok(state) => state,
            Err(refused) => refused.state,
        };
        out.copy_from_slice(&octets);
        Self::BYTES_OUT
    }

    fn left(&self) -> usize {
        usize::MAX
    }
}

// The turns are at least 2.7 years of speech. The buffers hold 64 frames: an array's length cannot be computed
// from a constant of the trait, so each program gives its own.
fn main(rt: HostRuntime) {
    let mut decoder = FileDecoder(Decoder::home());
    let mut room = [0; 9728];
    let mut out = [0; 10240];
    let outcome = io_coding::run(
        &mut rt.stdin(),
        &rt,
        &mut decoder,
        4294967295,
        1,
        &mut room,
        &mut out,
    );
    io_streams::report(&rt, outcome);
}
