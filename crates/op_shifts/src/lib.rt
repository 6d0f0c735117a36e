// 4.1: both shifts, of a word and of a long word, and norm, the count of a shift. A right shift rounds down. A left
// shift keeps the low bits. A negative count shifts in the other direction.
#![tactic(auto)]

ghost use Rattle.std.specs.Prelude.{◌≡◌, true, ◌^◌, ℤ, pos};
ghost use Rattle.std.specs.Int.Signed.{lt_z, shr_z};
ghost use Rattle.std.specs.Int.{Width, w16, w32};
ghost use Rattle.standard.specs.Arithmetic.{up, shr, shl, norm};
ghost use Rattle.standard.specs.Lpc.{normalized};

// What can be shifted: a word and a long word. `width` is the standard's, and `value` is the number.
pub trait Shift {
    ghost width: { Width };

    ghost value: { Self → ℤ };

    // x >> n, for n >= 0. From the width less 1 on only the sign is left.
    fn down(self, n: u32) -> Self
        ensures { value result ≡ shr_z (value self) (2 ^ n) };

    // x << n, for n >= 0. From the width on nothing is left.
    fn up(self, n: u32) -> Self
        ensures { value result ≡ up width (value self) n };
}

#[tactic(auto, using(crate::proofs::Machine::machine))]
impl Shift for i16 {
    ghost width = { w16 };

    ghost value = { λ x. x };

    fn down(self, n: u32) -> i16 {
        self.unbounded_shr(n)
    }

    fn up(self, n: u32) -> i16 {
        self.unbounded_shl(n)
    }
}

#[tactic(auto, using(crate::proofs::Machine::machine))]
impl Shift for i32 {
    ghost width = { w32 };

    ghost value = { λ x. x };

    fn down(self, n: u32) -> i32 {
        self.unbounded_shr(n)
    }

    fn up(self, n: u32) -> i32 {
        self.unbounded_shl(n)
    }
}

// x >> n.
#[tactic(auto, using(crate::proofs::Machine::counts))]
pub fn shr<T: Shift>(x: T, n: i16) -> T
    ensures { T.value result ≡ shr T.width (T.value x) n }
{
    if n < 0 {
        x.up(n.unsigned_abs() as u32)
    } else {
        x.down(n as u32)
    }
}

// x << n. The rescaling of 4.2.4 uses it; there it can lose high bits.
#[tactic(auto, using(crate::proofs::Machine::counts))]
pub fn shl<T: Shift>(x: T, n: i16) -> T
    ensures { T.value result ≡ shl T.width (T.value x) n }
{
    if n < 0 {
        x.down(n.unsigned_abs() as u32)
    } else {
        x.up(n as u32)
    }
}

// The 16 high bits of a long word that was shifted left by n: ACF[k] in 4.2.5, R and S in 4.2.11.
pub fn normalized(n: i16, x: i32) -> i16
    ensures { result ≡ normalized n x }
{
    (shl(x, n) >> 16) as i16
}

// How many left shifts a positive number needs to be 1073741824 or more: the count of its leading zeros, less 1.
pub fn norm(a: i32) -> i16
    requires { lt_z (pos 0) a ≡ true }
    ensures { result ≡ norm a }
{
    (a.leading_zeros() - 1) as i16
}
