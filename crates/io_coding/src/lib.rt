// The loop of the programs: it reads frames, has a coder make of each what is written, and keeps the bytes of a frame
// that is not whole yet for the next turn.
#![tactic(auto)]

ghost use Rattle.std.specs.Prelude.{◌≡◌, ℕ, List, ◌+◌, ◌*◌, ◌/◌, ◌^◌, ◌≤◌, ◌<◌, ◌⊎◌, length, ⊤, None, Ok, IfOk, IfSome};
ghost use Rattle.std.specs.Io.KnownBytes.{IsAtEnd};
ghost use Rattle.list_text.specs.Written.{Puts};
ghost use Rattle.io_streams.specs.Frames.{through, Through};
ghost use Rattle.io_coding.specs.Turn.{Turned};

use io_streams::Failure;
use std::io::Read;

#[cfg(test)]
mod tests;

// What a program makes of its input, frame after frame.
pub trait FrameCoder {
    // The bytes of a frame, and how many bytes are written for one at most.
    const BYTES_IN: usize;

    const BYTES_OUT: usize;

    ghost BYTES_IN: { ℕ };

    ghost BYTES_OUT: { ℕ };

    // The coder as a promise sees it; how a frame's bytes take it to the next one and to the bytes that are written,
    // and whether these bytes are promised; how many frames the coder may still be given.
    ghost State: { Type 0 };

    ghost state: { Self → State };

    ghost step: { State → List ℕ → State × List ℕ };

    ghost is_told: { Type 0 } = { ⊤ };

    ghost limit: { Self → ℕ };

    // Codes a frame: puts the bytes that are to be written at the front of `out`, and answers how many they are.
    fn frame(&mut self, bytes: &[u8], out: &mut [u8]) -> usize
        requires { (0 < limit self.old) × ((length bytes.now ≡ BYTES_IN) × (length out.old ≡ BYTES_OUT)) }
        ensures state { state self.new ≡ (step (state self.old) bytes.now).0 }
        ensures bytes { is_told → Puts 0 (step (state self.old) bytes.now).1 out.old result out.new }
        ensures room { result ≤ BYTES_OUT }
        ensures limit { limit self.old ≤ limit self.new + 1 };

    // How many frames it may still be given.
    fn left(&self) -> usize
        ensures { result ≡ limit self.now };

    // How many bytes a turn waits for: a frame, or less where no frame may follow.
    fn wanted(&self) -> usize
        ensures most { result ≤ BYTES_IN }
        ensures whole { 0 < limit self.now → result ≡ BYTES_IN }
    {
        Self::BYTES_IN
    }

    // Codes `frames` frames, one behind the other, and answers how many bytes they give. A coder that does better with
    // many frames at once than frame by frame has a body of its own.
    fn code(&mut self, frames: usize, bytes: &[u8], out: &mut [u8]) -> usize
        requires frames { frames ≤ limit self.old }
        requires room { (BYTES_IN * frames ≤ length bytes.now) × (BYTES_OUT * frames ≤ length out.old) }
        ensures state { state self.new ≡ (through step BYTES_IN (state self.old) frames bytes.now).0 }
        ensures codes { is_told → Through step BYTES_IN (state self.old) frames bytes.now out.old
            (state self.new) result out.new }
        ensures room { result ≤ BYTES_OUT * frames }
        ensures within { result ≤ length out.new }
    {
        let mut end = 0;
        // The index is data: it says where a frame's bytes begin, and a promise counts the frames.
        for i in 0..frames {
            let from = Self::BYTES_IN * i;
            end += self.frame(
                &bytes[from..from + Self::BYTES_IN],
                &mut out[end..end + Self::BYTES_OUT],
            );
        }
        end
    }

    // What is to be said where no whole frame is left, or none may follow. So many bytes are left over.
    fn end(&self, rt: &(impl Print + Eprint), rest: usize) -> Result<(), Failure>
        requires { rest < 2 ^ 32 }
    {
        io_streams::say_rest(rt, rest);
        Ok(())
    }

    ghost some_bytes: { 0 < BYTES_IN };
}

// Codes and writes the frames that have come. Bytes that make no frame yet are kept for the next turn: answers how
// many. Where there is no whole frame, or none may follow, the program ends.
fn turn<C: FrameCoder, R: Read>(
    input: &mut R,
    rt: &(impl Print + Eprint),
    coder: &mut C,
    there: usize,
    room: &mut [u8],
    out: &mut [u8],
) -> Result<Option<usize>, Failure>
    requires there { (there ≤ length room.old) × (length room.old < 2 ^ 32) }
    requires room { (C.BYTES_IN ≤ length room.old)
        × (C.BYTES_OUT * (length room.old / C.BYTES_IN) ≤ length out.old) }
    ensures room { IfOk result (λ next. IfSome next (λ rest. rest ≤ length room.new)) }
    ensures turned { IfOk result (λ next. IfSome next (λ rest.
        Turned C.is_told C.step C.BYTES_IN (C.state coder.old) (C.limit coder.old) there room.old out.old
        (C.state coder.new) rest room.new out.new)) }
    ensures ended { result ≡ Ok None → (C.limit coder.old ≡ 0) ⊎ IsAtEnd (R.remaining input.new) }
{
    let count = io_streams::gather(input, there, coder.wanted(), room)?;
    let frames = io_streams::frames(count, C::BYTES_IN, coder.left());
    if frames == 0 {
        coder.end(rt, count)?;
        return Ok(None);
    }
    let end = coder.code(frames, room, out);
    let rest = io_streams::keep(C::BYTES_IN * frames, count, room);
    io_streams::written(rt.write_all(&out[..end]))?;
    Ok(Some(rest))
}

// Codes the input, `turns` times `each` times what has come. The program must be shown to end, and nothing says that an
// input ends, so the turns are counted. Each that is not the last codes at least one frame.
pub fn run<C: FrameCoder>(
    input: &mut impl Read,
    rt: &(impl Print + Eprint),
    coder: &mut C,
    turns: u32,
    each: u32,
    room: &mut [u8],
    out: &mut [u8],
) -> Result<(), Failure>
    requires { ((C.BYTES_IN ≤ length room.old) × (length room.old < 2 ^ 32))
        × (C.BYTES_OUT * (length room.old / C.BYTES_IN) ≤ length out.old) }
    ensures buffers { (length room.new ≡ length room.old) × (length out.new ≡ length out.old) }
{
    let mut there = 0;
    for _ in 0..turns {
        for _ in 0..each {
            let Some(rest) = turn(input, rt, coder, there, room, out)? else {
                return Ok(());
            };
            there = rest;
        }
    }
    Ok(())
}

// The same with any number of turns that a u64 holds, and with no u64: 2^32 times `high`, plus `low`.
pub fn run_counted<C: FrameCoder>(
    input: &mut impl Read,
    rt: &(impl Print + Eprint),
    coder: &mut C,
    high: u32,
    low: u32,
    room: &mut [u8],
    out: &mut [u8],
) -> Result<(), Failure>
    requires { ((C.BYTES_IN ≤ length room.old) × (length room.old < 2 ^ 32))
        × (C.BYTES_OUT * (length room.old / C.BYTES_IN) ≤ length out.old) }
    ensures buffers { (length room.new ≡ length room.old) × (length out.new ≡ length out.old) }
{
    let mut there = 0;
    // The numbers of the turns, in two words, up to that of the first that is not taken.
    for i in 0..=high {
        for j in 0..=u32::MAX {
            if (i, j) == (high, low) {
                return Ok(());
            }
            match turn(input, rt, coder, there, room, out)? {
                Some(rest) => there = rest,
                None => return Ok(()),
            }
        }
    }
    Ok(())
}
