// Encodes a file of samples to a file of codewords, both in the form of annex A3, from home: SEQxx.INP to SEQxx.COD.
#![tactic(auto)]

ghost use Rattle.std.specs.Prelude.{◌-◌, ◌^◌};
ghost use Rattle.std.proofs.Common.{rules};
ghost use Rattle.standard.specs.Coder.{Coder};
ghost use Rattle.encoder.specs.Promise.{coder};
ghost use Rattle.encode.specs.Frame.{encoded};

use encoder::Encoder;
use io_coding::FrameCoder;

// The encoder, as it takes samples and gives codewords in the form of a file.
#[derive(Clone, Copy)]
struct FileEncoder(Encoder);

impl FrameCoder for FileEncoder {
    // 160 samples in, 76 codewords out.
    const BYTES_IN: usize = 320;

    const BYTES_OUT: usize = 152;

    ghost BYTES_IN = { 320 };

    ghost BYTES_OUT = { 152 };

    ghost State = { Coder };

    ghost state = { λ e. coder e.0 };

    ghost step = { encoded };

    ghost limit = { λ _. 2 ^ 64 - 1 };

    ghost some_bytes = { Prim.search rules };

    fn frame(&mut self, bytes: &[u8], out: &mut [u8]) -> usize {
        let mut samples = [0; 160];
        io_files::from_bytes(bytes, &mut samples);
        let mut codewords = [0; 76];
        self.0 = match self.0.encode(&samples, &mut codewords) {
            Ok(coded) => coded.state,
            Err(refused) => refused.state,
        };
        io_files::to_bytes(&codewords, out);
        Self::BYTES_OUT
    }

    fn left(&self) -> usize {
        usize::MAX
    }
}

// The turns are at least 2.7 years of speech. The buffers hold 64 frames: an array's length cannot be computed
// from a constant of the trait, so each program gives its own.
fn main(rt: HostRuntime) {
    let mut encoder = FileEncoder(Encoder::home());
    let mut room = [0; 20480];
    let mut out = [0; 9728];
    let outcome = io_coding::run(
        &mut rt.stdin(),
        &rt,
        &mut encoder,
        4294967295,
        1,
        &mut room,
        &mut out,
    );
    io_streams::report(&rt, outcome);
}
