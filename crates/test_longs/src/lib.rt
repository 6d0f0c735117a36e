// 4.1: the operations on long words that no stage calls: the codec adds plainly, and its sums are proved to be these.
// The program test_operations compares them with those of other codecs. All is done on 32 bits.
#![tactic(auto)]

ghost use Rattle.std.specs.Prelude.{◌≡◌};
ghost use Rattle.std.specs.Int.{w16};
ghost use Rattle.standard.specs.Arithmetic.{L_add, L_sub, L_mult, keep};

#[tactic(auto, unfolding(standard::specs::Arithmetic::plus, standard::specs::Arithmetic::clip))]
pub fn l_add(a: i32, b: i32) -> i32
    ensures { result ≡ L_add a b }
{
    a.saturating_add(b)
}

#[tactic(auto, unfolding(standard::specs::Arithmetic::minus, standard::specs::Arithmetic::clip))]
pub fn l_sub(a: i32, b: i32) -> i32
    ensures { result ≡ L_sub a b }
{
    a.saturating_sub(b)
}

// Twice the product. Only -32768 times -32768 goes beyond the limit.
#[tactic(auto, unfolding(standard::specs::Arithmetic::L_mult, standard::specs::Arithmetic::clip))]
pub fn l_mult(a: i16, b: i16) -> i32
    ensures { result ≡ L_mult a b }
{
    let p = a as i32 * b as i32;
    p.saturating_add(p)
}

// L_var1 = var1.
pub fn long_word(a: i16) -> i32
    ensures { result ≡ a }
{
    i32::from(a)
}

// var2 = L_var1: the low 16 bits. `as` cuts nothing off, so the others are shifted out, to the left and back.
pub fn low_word(a: i32) -> i16
    ensures { result ≡ keep w16 a }
{
    ((a << 16) >> 16) as i16
}
