// Both ends back to back on a recording, each from home. On two frames of three, stray bits are set on the way from one
// end to the other. After each frame the program tests what is claimed of both ends and prints a line: the frame, stray
// or plain, the loudest sample of the history, and the verdict.
#![tactic(auto)]

ghost use Rattle.std.specs.Prelude.{◌≡◌, true, cond, ◌↔◌, ℕ, Some, None, ◌+◌, ◌-◌, ◌*◌, ◌≤◌, ◌<◌, length, pos};
ghost use Rattle.std.proofs.Common.{rules};
ghost use Rattle.standard.specs.Arithmetic.{within};
ghost use Rattle.standard.specs.Tables.{neg};
ghost use Rattle.together.specs.Count.{counted};

use arrayvec::ArrayVec;
use decoder::Decoder;
use encoder::Encoder;
use io_coding::FrameCoder;
use io_streams::Failure;
use list_text::{decimal, field, fields, text};
use refusals::Refused;

// Both ends.
#[derive(Clone, Copy)]
struct Pair {
    encoder: Encoder,
    decoder: Decoder,
}

// What can be wrong with a frame: a call refused it, a codeword does not fit, a lag is out of range, or the two ends
// differ in the history or in the ratios.
#[derive(Clone, Copy)]
enum Fault {
    Refused,
    Field,
    Lag,
    History,
    Ratios,
}

// Which of them a frame has: five tests that do not depend on one another.
#[derive(Clone, Copy)]
struct Faults {
    refused: bool,
    field: bool,
    lag: bool,
    history: bool,
    ratios: bool,
}

// The outcome of a frame.
#[derive(Clone, Copy)]
struct Outcome {
    pair: Pair,
    stray: bool,
    fault: Option<Fault>,
}

// Both ends after a number of frames, and how many of these frames had a fault.
#[derive(Clone, Copy)]
struct Tally {
    pair: Pair,
    frames: u32,
    apart: u32,
    ghost within: { frames ≤ 1000000 },
    ghost counted: { apart ≤ frames },
}

impl Faults {
    // The first fault, in the order of the struct.
    fn first(self) -> Option<Fault>
        ensures { result ≡ cond self.refused (Some Fault.Refused)
            (cond self.field (Some Fault.Field)
            (cond self.lag (Some Fault.Lag)
            (cond self.history (Some Fault.History)
            (cond self.ratios (Some Fault.Ratios) None)))) }
    {
        self.refused
            .then_some(Fault::Refused)
            .or(self.field.then_some(Fault::Field))
            .or(self.lag.then_some(Fault::Lag))
            .or(self.history.then_some(Fault::History))
            .or(self.ratios.then_some(Fault::Ratios))
    }
}

// The stray bits of frame n.
fn stray_bits(n: u32) -> i16
    requires { n ≤ 1000000 }
    ensures { within (neg 256) (pos 255) result ≡ true }
{
    (n * 37 % 512) as i16 - 256
}

// Sets them on two frames of three, and says whether it did. A frame that does not fit its fields is left as it is.
fn disturbed(n: u32, codewords: &mut [i16; 76]) -> bool
    requires { n ≤ 1000000 }
{
    let stray = n % 3 != 0 && frame_codewords::fits(codewords);
    if stray {
        test_agreement::strayed(stray_bits(n), codewords);
    }
    stray
}

impl Pair {
    // Whether both ends have the same history.
    fn same_history(&self) -> bool
        ensures { (result ≡ true) ↔ (self.now.encoder.dp ≡ self.now.decoder.drp) }
    {
        test_agreement::same(&self.encoder.dp, &self.decoder.drp)
    }

    // Whether both ends have the same log-area ratios.
    fn same_ratios(&self) -> bool
        ensures { (result ≡ true) ↔ (self.now.encoder.larpp ≡ self.now.decoder.larpp) }
    {
        test_agreement::same(&self.encoder.larpp, &self.decoder.larpp)
    }
}

// The frame decoded. The samples themselves are not looked at.
fn heard(m: Decoder, codewords: &[i16; 76]) -> Result<Decoder, Refused<Decoder>> {
    let mut samples = [0; 160];
    m.decode(codewords, &mut samples)
}

// A frame from one end to the other, with its first fault.
fn handed_over(n: u32, before: Pair, samples: &[i16; 160]) -> Outcome
    requires { n ≤ 1000000 }
{
    let mut codewords = [0; 76];
    let coded = before.encoder.encode(samples, &mut codewords);
    let fit = frame_codewords::fits(&codewords);
    let lags = test_agreement::lags(&codewords);
    let stray = disturbed(n, &mut codewords);
    let decoded = heard(before.decoder, &codewords);
    let refused = coded.is_err() || decoded.is_err();
    let encoder = match coded {
        Ok(frame) => frame.state,
        Err(kept) => kept.state,
    };
    let decoder = match decoded {
        Ok(state) => state,
        Err(kept) => kept.state,
    };
    let pair = Pair { encoder, decoder };
    let faults = Faults {
        refused,
        field: !fit,
        lag: !lags,
        history: !pair.same_history(),
        ratios: !pair.same_ratios(),
    };
    Outcome {
        pair,
        stray,
        fault: faults.first(),
    }
}

// The verdict's field, after its tab: the fault, or that there is none.
fn verdict(fault: Option<Fault>) -> &'static [u8]
    ensures { length result.now ≤ 9 }
{
    match fault {
        Some(Fault::Refused) => b"\trefused",
        Some(Fault::Field) => b"\tfield",
        Some(Fault::Lag) => b"\tlag",
        Some(Fault::History) => b"\thistory",
        Some(Fault::Ratios) => b"\tratios",
        None => b"\ttogether",
    }
}

// Whether stray bits were set, after its tab.
fn manner(stray: bool) -> &'static [u8]
    ensures { length result.now ≤ 6 }
{
    if stray { b"\tstray" } else { b"\tplain" }
}

// A frame's line.
fn line(n: u32, outcome: &Outcome) -> ArrayVec<u8, 64>
    requires { n ≤ 1000000 }
{
    let mut line = ArrayVec::new();
    decimal(n, &mut line);
    text(manner(outcome.stray), &mut line);
    fields(&[op_sums::peak(&outcome.pair.encoder.dp)], &mut line);
    text(verdict(outcome.fault), &mut line);
    line.push(b'\n');
    line
}

// The last line: the frames, and how many of them had a fault.
fn last_line(tally: &Tally) -> ArrayVec<u8, 64> {
    let mut line = ArrayVec::new();
    line.push(b'E');
    field(tally.frames, &mut line);
    field(tally.apart, &mut line);
    line.push(b'\n');
    line
}

impl FrameCoder for Tally {
    // 160 samples in, a line of at most 64 bytes out.
    const BYTES_IN: usize = 320;

    const BYTES_OUT: usize = 64;

    // Each frame is counted. What the lines say is not promised.
    ghost BYTES_IN = { 320 };

    ghost BYTES_OUT = { 64 };

    ghost State = { ℕ };

    ghost state = { λ t. t.frames };

    ghost step = { counted };

    ghost is_told = { ⊥ };

    ghost limit = { λ t. 1000000 - t.frames };

    ghost some_bytes = { Prim.search rules };

    // The next frame from one end to the other, and its line.
    fn frame(&mut self, bytes: &[u8], out: &mut [u8]) -> usize {
        let mut samples = [0; 160];
        io_files::from_bytes(bytes, &mut samples);
        let n = self.frames + 1;
        let outcome = handed_over(n, self.pair, &samples);
        *self = Tally {
            pair: outcome.pair,
            frames: n,
            apart: self.apart + u32::from(outcome.fault.is_some()),
        };
        let line = line(n, &outcome);
        out[..line.len()].copy_from_slice(&line);
        line.len()
    }

    // At most 1,000,000 frames, which are five and a half hours of speech.
    fn left(&self) -> usize {
        (1000000 - self.frames) as usize
    }

    // After the last frame no more is read.
    fn wanted(&self) -> usize {
        if self.frames < 1000000 {
            Self::BYTES_IN
        } else {
            0
        }
    }

    // Writes the last line.
    fn end(&self, rt: &(impl Print + Eprint), rest: usize) -> Result<(), Failure> {
        if self.frames < 1000000 {
            io_streams::say_rest(rt, rest);
        }
        io_streams::written(rt.write_all(last_line(self).as_slice()))
    }
}

// A turn that is not the last takes at least one frame, so 1000001 turns are enough for 1000000 frames and the last
// line. The buffers hold 64 frames.
fn main(rt: HostRuntime) {
    let mut tally = Tally {
        pair: Pair {
            encoder: Encoder::home(),
            decoder: Decoder::home(),
        },
        frames: 0,
        apart: 0,
    };
    let mut room = [0; 20480];
    let mut out = [0; 4096];
    let outcome = io_coding::run(
        &mut rt.stdin(),
        &rt,
        &mut tally,
        1000001,
        1,
        &mut room,
        &mut out,
    );
    io_streams::report(&rt, outcome);
}
