// House rules, 'Packing': the packed frame, 76 codewords in 33 bytes, b1 in the lowest bit of the first byte. A call
// that refuses ('Refusals') leaves the buffer that was passed as it was.
#![tactic(auto)]

ghost use Rattle.std.specs.Prelude.{◌≡◌, true, not, [], ◌∷◌, ◌+◌, ◌*◌, ◌^◌, ◌≤◌, ◌<◌, eqb, length, get_or, take, drop, OnOk};
ghost use Rattle.standard.specs.Frame.{widths};
ghost use Rattle.standard.specs.Packed.{packed, unpacked};
ghost use Rattle.standard.specs.House.{refusal, fits};
ghost use Rattle.refusals.specs.Numbers.{answered};
ghost use Rattle.packing.specs.Promise.{Packs, Unpacks};
ghost use Rattle.packing.specs.Turns.{Filling, Reading};

use frame_codewords::{LARC_BITS, SUB_BITS};
use refusals::Refusal;

// 2 to the n.
fn power(n: u16) -> u32
    requires { n ≤ 15 }
    ensures { result ≡ 2 ^ n }
{
    1u32 << n
}

// The sum of low and of high moved up by n bits. Where low has n bits, high is in the bits above it.
fn above(low: u32, n: u16, high: u32) -> u32
    requires { (low < 32768) × (n ≤ 14) × (high < 256) }
    ensures { result ≡ low + 2 ^ n * high }
{
    low + power(n) * high
}

// The bits between the fields and the bytes, the next one lowest: the number that they make, how many they are, and
// which byte is next.
#[derive(Clone, Copy, Default)]
struct Queue {
    waiting: u32,
    have: u16,
    at: usize,
}

impl Queue {
    // Codeword i is put above the bits that wait. Where eight or more bits wait then, the lowest eight become a byte.
    fn put(&mut self, i: usize, width: u16, codewords: &[i16], bytes: &mut [u8])
        requires { (length codewords.now ≡ 76) × (fits codewords.now ≡ true) × (i < 76) × (width ≡ get_or widths i 0)
            × Filling codewords.now i self.old.at self.old.have self.old.waiting bytes.old }
        ensures { Filling codewords.now (i + 1) self.new.at self.new.have self.new.waiting bytes.new }
    {
        self.waiting = above(self.waiting, self.have, codewords[i] as u32);
        self.have += width;
        if self.have >= 8 {
            bytes[self.at] = (self.waiting % 256) as u8;
            self.waiting /= 256;
            self.have -= 8;
            self.at += 1;
        }
    }

    // Where the bits that wait are too few for codeword i, the next byte is put above them. The lowest bits become the
    // codeword.
    fn take(&mut self, i: usize, width: u16, bytes: &[u8], codewords: &mut [i16])
        requires { (length bytes.now ≡ 33) × (i < 76) × (width ≡ get_or widths i 0)
            × Reading bytes.now self.old.at i self.old.have self.old.waiting codewords.old }
        ensures { Reading bytes.now self.new.at (i + 1) self.new.have self.new.waiting codewords.new }
    {
        if self.have < width {
            self.waiting = above(self.waiting, self.have, bytes[self.at] as u32);
            self.have += 8;
            self.at += 1;
        }
        let limit = power(width);
        codewords[i] = (self.waiting % limit) as i16;
        self.waiting /= limit;
        self.have -= width;
    }
}

// Some fields in turn, the first of them at codeword `from`; `bits` has their widths. Returns the bits that wait then.
// Where the queue and the widths are known numbers, the compiler unrolls the loop, and then knows for each field how
// far it is moved and whether it fills a byte.
fn put_fields(mut q: Queue, from: usize, bits: &[u16], codewords: &[i16], bytes: &mut [u8]) -> Queue
    requires { (length codewords.now ≡ 76) × (fits codewords.now ≡ true)
        × (bits.now ≡ take (length bits.now) (drop from widths))
        × Filling codewords.now from q.at q.have q.waiting bytes.old }
    ensures { Filling codewords.now (from + length bits.now) result.at result.have result.waiting bytes.new }
{
    for (i, &width) in bits.iter().enumerate() {
        q.put(from + i, width, codewords, bytes);
    }
    q
}

// The eight ratios are four bytes, and four bits wait. Each of the four sub-frames is seven bytes, after which four
// bits wait again. Those that wait at the end are the last byte, and its spare bits are 0. j is data: it says where a
// sub-frame begins, in bytes and in codewords.
fn fill_bytes(codewords: &[i16], bytes: &mut [u8])
    requires { (length codewords.now ≡ 76) × (length bytes.old ≡ 33) × (fits codewords.now ≡ true) }
    ensures { bytes.new ≡ packed codewords.now }
{
    let mut waiting = put_fields(Queue::default(), 0, &LARC_BITS, codewords, bytes).waiting;
    for j in 0..4usize {
        let q = Queue {
            waiting,
            have: 4,
            at: 4 + 7 * j,
        };
        waiting = put_fields(q, 8 + 17 * j, &SUB_BITS, codewords, bytes).waiting;
    }
    bytes[32] = waiting as u8;
}

// The same way back.
fn take_fields(
    mut q: Queue,
    from: usize,
    bits: &[u16],
    bytes: &[u8],
    codewords: &mut [i16],
) -> Queue
    requires { (length bytes.now ≡ 33) × (bits.now ≡ take (length bits.now) (drop from widths))
        × Reading bytes.now q.at from q.have q.waiting codewords.old }
    ensures { Reading bytes.now result.at (from + length bits.now) result.have result.waiting codewords.new }
{
    for (i, &width) in bits.iter().enumerate() {
        q.take(from + i, width, bytes, codewords);
    }
    q
}

// The eight ratios, after which four bits of the fifth byte wait. Each of the four sub-frames is made of four such bits
// and of seven bytes: its four parameters first and then its thirteen pulses, since the compiler does not unroll one
// loop of seventeen here. The four bits that wait at the end are the spare ones. j is data, as above.
fn fill_codewords(bytes: &[u8], codewords: &mut [i16])
    requires { (length bytes.now ≡ 33) × (length codewords.old ≡ 76) }
    ensures { codewords.new ≡ unpacked bytes.now }
{
    let mut waiting = take_fields(Queue::default(), 0, &LARC_BITS, bytes, codewords).waiting;
    for j in 0..4usize {
        let from = 8 + 17 * j;
        let q = Queue {
            waiting,
            have: 4,
            at: 5 + 7 * j,
        };
        let q = take_fields(q, from, &SUB_BITS[..4], bytes, codewords);
        waiting = take_fields(q, from + 4, &SUB_BITS[4..], bytes, codewords).waiting;
    }
}

// What both calls test first.
fn length_refusal(codewords: usize, bytes: usize) -> Result<(), Refusal>
    ensures number { answered result ≡ refusal ((not (eqb codewords 76), 2) ∷ (not (eqb bytes 33), 4) ∷ []) }
    ensures lengths { OnOk result ((codewords ≡ 76) × (bytes ≡ 33)) }
{
    if codewords != 76 {
        return Err(Refusal::Codewords);
    }
    if bytes != 33 {
        return Err(Refusal::Bytes);
    }
    Ok(())
}

// The 33 bytes of 76 codewords. Refused: a length, or a codeword that is wider than its field.
pub fn pack(codewords: &[i16], bytes: &mut [u8]) -> Result<(), Refusal>
    ensures { Packs codewords.now bytes.old (answered result) bytes.new }
{
    length_refusal(codewords.len(), bytes.len())?;
    if !frame_codewords::fits(codewords) {
        return Err(Refusal::Field);
    }
    fill_bytes(codewords, bytes);
    Ok(())
}

// The 76 codewords of 33 bytes. Refused: a length, or a spare bit that is 1. The spare bits are the top four of the
// last byte.
pub fn unpack(bytes: &[u8], codewords: &mut [i16]) -> Result<(), Refusal>
    ensures { Unpacks bytes.now codewords.old (answered result) codewords.new }
{
    length_refusal(codewords.len(), bytes.len())?;
    if bytes[32] / 16 != 0 {
        return Err(Refusal::Spare);
    }
    fill_codewords(bytes, codewords);
    Ok(())
}
