// Standard input, for the programs, and why a program stops before its input ends. No promise can say what standard
// input gives or whether a write succeeds.
#![tactic(auto)]

ghost use Rattle.std.specs.Prelude.{◌≡◌, ◌++◌, ◌-◌, ◌/◌, ◌≤◌, ◌<◌, ◌↔◌, min, length, take, drop, slice_range, IfOk, IfErr, IsOk};
ghost use Rattle.std.specs.Io.KnownBytes.{Consumes, IsAtEnd};
ghost use Rattle.io_streams.specs.declared.Failure.TheVariants.{Unreadable};
ghost use Rattle.io_streams.specs.Promise.{Gathered, bytes_there};

use std::io::Read;
use std::{fmt, io};

// A read failed. So many bytes were there before it.
#[derive(Clone, Copy)]
pub struct Unread {
    pub count: usize,
}

// Why a program stops before its input ends.
#[derive(Clone, Copy)]
pub enum Failure {
    Unreadable,
    Unwritable,
}

impl fmt::Display for Failure {
    fn fmt<W: fmt::Write>(&self, f: &mut fmt::Formatter<W>) -> fmt::Result {
        match self {
            Failure::Unreadable => write!(f, "standard input cannot be read"),
            Failure::Unwritable => write!(f, "standard output cannot be written"),
        }
    }
}

impl From<Unread> for Failure {
    ghost from_gives = { λ _ r. r ≡ Unreadable };

    fn from(_before: Unread) -> Failure {
        Failure::Unreadable
    }
}

// Reads behind the bytes that are there, as much as each read gives, until there are at least `least` bytes, the input
// ends or a read fails. A pipe gives its bytes in pieces; a piece that has come does not wait until the buffer is full.
// Answers how many bytes there are. A failure is told only where there are fewer bytes than were wanted.
pub fn gather<R: Read>(
    input: &mut R,
    there: usize,
    least: usize,
    room: &mut [u8],
) -> Result<usize, Unread>
    requires { (there ≤ length room.old) × (least ≤ length room.old) }
    ensures gathered { Gathered there least room.old result room.new }
    ensures taken { Consumes (R.remaining input.old) (R.remaining input.new)
        (slice_range room.new there (bytes_there result)) }
    ensures ended { IfOk result (λ count. count < least → IsAtEnd (R.remaining input.new)) }
{
    let mut done = there;
    // This is no count: a read gives as many bytes as it likes.
    while done < least {
        match input.read(&mut room[done..]) {
            Ok(0) => break,
            Ok(more) => done += more,
            Err(_) => return Err(Unread { count: done }),
        }
    }
    Ok(done)
}

// How many whole frames of `size` bytes there are in `count` bytes, but at most `most`.
pub fn frames(count: usize, size: usize, most: usize) -> usize
    requires { 0 < size }
    ensures { result ≡ min (count / size) most }
{
    (count / size).min(most)
}

// Moves the bytes from index `from` up to `count` to the front of the buffer, and answers how many they are.
pub fn keep(from: usize, count: usize, room: &mut [u8]) -> usize
    requires { (from ≤ count) × (count ≤ length room.old) }
    ensures is { result ≡ count - from }
    ensures moved { room.new
        ≡ take (count - from) (drop from room.old) ++ drop (count - from) room.old }
{
    room.copy_within(from..count, 0);
    count - from
}

// Whether a write succeeded, from what it answered. Where it did not, the failure is that of a write.
pub fn written(outcome: io::Result<()>) -> Result<(), Failure>
    ensures outcome { IsOk result ↔ IsOk outcome }
    ensures failure { IfErr result (λ failure. failure ≡ Failure.Unwritable) }
{
    outcome.map_err(|_| Failure::Unwritable)
}

// Reports on standard error how many bytes are left over, where there are some.
pub fn say_rest(rt: &impl Eprint, rest: usize) {
    if 0 < rest {
        let _ = eprintln!(rt; "{rest} bytes are left over, less than a frame: not coded");
    }
}

// Reports on standard error why a program stops, where it stops before its input ends.
pub fn report(rt: &impl Eprint, outcome: Result<(), Failure>) {
    if let Err(failure) = outcome {
        let _ = eprintln!(rt; "{failure}");
    }
}
