// Text of the listing, put behind what a vector of bytes holds already. Its room is fixed, and each function asks for
// the room that it needs.
#![tactic(auto)]

ghost use Rattle.std.specs.Prelude.{◌≡◌, ◌∷◌, ◌++◌, map, ◌+◌, ◌-◌, ◌*◌, ◌≤◌, ◌<◌, length, take, drop, replicate};
ghost use Rattle.standard.specs.Listing as standard;
ghost use Rattle.list_text.specs.Fields.{tabbed};

use arrayvec::ArrayVec;
use itoa::Buffer;
use std::marker::Model;

#[cfg(test)]
mod tests;

// A line of the listing, or the lines of a frame.
pub type Text = ArrayVec<u8, 1024>;

// The same text as a value that can be copied, which a vector cannot. Its bytes stand at the front, and behind them is
// 0, so that two of the same text are equal.
#[derive(Clone, Copy)]
pub struct Lines {
    bytes: [u8; 1024],
    len: usize,
}

impl Model for Lines {
    ghost use Rattle.std.specs.Prelude.{◌≡◌, ℕ, ◌≤◌, ◌-◌, ◌++◌, length, take, drop, replicate};
    ghost use Rattle.arrayvec.specs.ArrayVec.{ArrayVec};
    ghost use Rattle.list_text.specs.Kept.{kept, kept_length};

    ghost Value = { ArrayVec ℕ };

    ghost view = { λ l. record { items = take l.len l.bytes } };

    ghost invariant = { λ l. (l.len ≤ 1024) × (length l.bytes ≡ 1024)
        × (drop l.len l.bytes ≡ replicate (1024 - l.len) 0) };

    ghost inverse = { λ t. record { bytes = t.items ++ replicate (1024 - length t.items) 0; len = length t.items } };

    ghost inverse_ok = { λ l h i. record {
      bytes = kept l.len l.bytes h.0 h.1 h.2 i;
      len = kept_length l.len l.bytes h.0 h.1 i;
    } };
}

impl Lines {
    // A text's copy.
    pub fn of(text: &Text) -> Lines
        ensures { result.items ≡ text.now.items }
    {
        let len = text.len();
        let mut bytes = [0; 1024];
        bytes[..len].copy_from_slice(text);
        Lines { bytes, len }
    }

    // Its bytes, at most as many as a text may have.
    pub fn as_slice(&self) -> &[u8]
        ensures bytes { result.now ≡ self.now.items }
        ensures room { length result.now ≤ 1024 }
    {
        &self.bytes[..self.len]
    }
}

// Bytes as they are.
pub fn text<const N: usize>(t: &[u8], out: &mut ArrayVec<u8, N>)
    requires { length out.old.items + length t.now ≤ N }
    ensures text { out.new.items ≡ out.old.items ++ t.now }
    ensures room { length out.new.items ≡ length out.old.items + length t.now }
{
    // There is room, so nothing is left out.
    let _fits = out.try_extend_from_slice(t);
}

// A number of at most seven digits. Most numbers of a listing have one, which is its byte.
pub fn decimal<const N: usize>(n: u32, out: &mut ArrayVec<u8, N>)
    requires { (n < 10000000) × (length out.old.items + 7 ≤ N) }
    ensures text { out.new.items ≡ out.old.items ++ standard.decimal n }
    ensures room { length out.new.items ≤ length out.old.items + 7 }
{
    if n < 10 {
        out.push(b'0' + n as u8);
    } else {
        text(Buffer::new().format(n).as_bytes(), out);
    }
}

// A tab and a number.
pub fn field<const N: usize>(n: u32, out: &mut ArrayVec<u8, N>)
    requires { (n < 10000000) × (length out.old.items + 8 ≤ N) }
    ensures text { out.new.items ≡ out.old.items ++ 9 ∷ standard.decimal n }
    ensures room { length out.new.items ≤ length out.old.items + 8 }
{
    out.push(b'\t');
    decimal(n, out);
}

// A field for each word: a tab and its absolute value.
pub fn fields<const N: usize>(words: &[i16], out: &mut ArrayVec<u8, N>)
    requires { length out.old.items + 8 * length words.now ≤ N }
    ensures text { out.new.items ≡ out.old.items ++ tabbed (map standard.word words.now) }
    ensures room { length out.new.items ≤ length out.old.items + 8 * length words.now }
{
    for &w in words {
        field(u32::from(w.unsigned_abs()), out);
    }
}
