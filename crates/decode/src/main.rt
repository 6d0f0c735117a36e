// Decodes a file of codewords to a file of samples, both in the form of annex A3, from home: SEQxx.COD to SEQxx.OUT.
#![tactic(auto)]

ghost use Rattle.std.specs.Prelude.{◌-◌, ◌^◌};
ghost use Rattle.std.proofs.Common.{rules};
ghost use Rattle.standard.specs.Decoder as standard;
ghost use Rattle.decoder.specs.Promise.{memory};
ghost use Rattle.decode.specs.Frame.{decoded};

use decoder::Decoder;
use io_coding::FrameCoder;

// The decoder, as it takes codewords and gives samples in the form of a file.
#[derive(Clone, Copy)]
struct FileDecoder(Decoder);

impl FrameCoder for FileDecoder {
    // 76 codewords in, 160 samples out.
    const BYTES_IN: usize = 152;

    const BYTES_OUT: usize = 320;

    ghost BYTES_IN = { 152 };

    ghost BYTES_OUT = { 320 };

    ghost State = { standard.Decoder };

    ghost state = { λ d. memory d.0 };

    ghost step = { decoded };

    ghost limit = { λ _. 2 ^ 64 - 1 };

    ghost some_bytes = { Prim.search rules };

    fn frame(&mut self, bytes: &[u8], out: &mut [u8]) -> usize {
        let mut codewords = [0; 76];
        io_files::from_bytes(bytes, &mut codewords);
        let mut samples = [0; 160];
        self.0 = match self.0.decode(&codewords, &mut samples) {
            Ok(state) => state,
            Err(refused) => refused.state,
        };
        io_files::to_bytes(&samples, out);
        Self::BYTES_OUT
    }

    fn left(&self) -> usize {
        usize::MAX
    }
}

// The turns are at least 2.7 years of speech. The buffers hold 64 frames: an array's length cannot be computed
// from a constant of the trait, so each program gives its own.
fn main(rt: HostRuntime) {
    let mut decoder = FileDecoder(Decoder::home());
    let mut room = [0; 9728];
    let mut out = [0; 20480];
    let outcome = io_coding::run(
        &mut rt.stdin(),
        &rt,
        &mut decoder,
        4294967295,
        1,
        &mut room,
        &mut out,
    );
    io_streams::report(&rt, outcome);
}
