// Expands a file of A-law octets to a file of samples, low byte first, as encode and lister read them. Every octet is a
// frame of one sample, so nothing is left over.
#![tactic(auto)]

ghost use Rattle.std.specs.Prelude.{◌-◌, ◌^◌};
ghost use Rattle.std.proofs.Common.{rules};
ghost use Rattle.expand.specs.Octets.{expanded};

use io_coding::FrameCoder;

// What expands octets. It has nothing to remember, but room for the samples of a buffer of octets.
#[derive(Clone, Copy)]
struct Expander {
    samples: [i16; 10240],
}

impl FrameCoder for Expander {
    // An octet in, the two bytes of a sample out.
    const BYTES_IN: usize = 1;

    const BYTES_OUT: usize = 2;

    ghost BYTES_IN = { 1 };

    ghost BYTES_OUT = { 2 };

    ghost State = { Unit {0} };

    ghost state = { λ _. tt };

    ghost step = { expanded };

    ghost limit = { λ _. 10240 };

    ghost some_bytes = { Prim.search rules };

    fn frame(&mut self, octet: &[u8], out: &mut [u8]) -> usize {
        let mut sample = [0];
        pcm_alaw::samples(octet, &mut sample);
        io_files::to_bytes(&sample, out);
        Self::BYTES_OUT
    }

    // As many as there is room for; a buffer has no more.
    fn left(&self) -> usize {
        self.samples.len()
    }

    // All samples first, and then the bytes of all: sample by sample it takes a third more time.
    fn code(&mut self, frames: usize, octets: &[u8], out: &mut [u8]) -> usize {
        let end = Self::BYTES_OUT * frames;
        pcm_alaw::samples(&octets[..frames], &mut self.samples[..frames]);
        io_files::to_bytes(&self.samples[..frames], &mut out[..end]);
        end
    }
}

// The turns, each of at least one octet, are 160 times 4,294,967,295: at least 2.7 years of speech.
fn main(rt: HostRuntime) {
    let mut expander = Expander {
        samples: [0; 10240],
    };
    let mut octets = [0; 10240];
    let mut out = [0; 20480];
    let outcome = io_coding::run(
        &mut rt.stdin(),
        &rt,
        &mut expander,
        4294967295,
        160,
        &mut octets,
        &mut out,
    );
    io_streams::report(&rt, outcome);
}
