// House rules, 'Listing': the lister. Samples from standard input, the lines of their frames to standard output.
#![tactic(auto)]

ghost use Rattle.std.specs.Prelude.{◌-◌};
ghost use Rattle.std.proofs.Common.{rules};
ghost use Rattle.list_frames.specs.Promise.{State, state, listed};

use io_coding::FrameCoder;
use io_streams::Failure;
use list_frames::Lister;

// The lister, as it takes samples in the form of a file.
#[derive(Clone, Copy)]
struct FileLister(Lister);

impl FrameCoder for FileLister {
    // 160 samples in, at most 1024 bytes of lines out.
    const BYTES_IN: usize = 320;

    const BYTES_OUT: usize = 1024;

    ghost BYTES_IN = { 320 };

    ghost BYTES_OUT = { 1024 };

    ghost State = { State };

    ghost state = { λ l. state l.0 };

    ghost step = { listed };

    ghost limit = { λ l. 1000000 - l.0.frames };

    ghost some_bytes = { Prim.search rules };

    fn frame(&mut self, bytes: &[u8], out: &mut [u8]) -> usize {
        let bytes = <&[u8; 320]>::try_from(bytes).unwrap();
        let listed = self.0.listed(bytes);
        self.0 = listed.state;
        let lines = listed.lines.as_slice();
        out[..lines.len()].copy_from_slice(lines);
        lines.len()
    }

    // The first 1,000,000 frames are listed.
    fn left(&self) -> usize {
        1000000u32.saturating_sub(self.0.frames) as usize
    }

    // Writes the E line.
    fn end(&self, rt: &(impl Print + Eprint), rest: usize) -> Result<(), Failure> {
        io_streams::written(rt.write_all(self.0.ended(rest as u32).as_slice()))
    }
}

// A turn that is not the last lists at least one frame, so 1000001 turns are enough for 1000000 frames and the last
// line. The buffers hold 64 frames.
fn list(rt: &HostRuntime) -> Result<(), Failure> {
    io_streams::written(rt.write_all(list_borders::header().as_slice()))?;
    let mut lister = FileLister(Lister::start());
    let mut room = [0; 20480];
    let mut out = [0; 65536];
    io_coding::run(
        &mut rt.stdin(),
        rt,
        &mut lister,
        1000001,
        1,
        &mut room,
        &mut out,
    )
}

fn main(rt: HostRuntime) {
    io_streams::report(&rt, list(&rt));
}
