// The three demands (house rules, 'What counts as shown'): demands 1 and 2 for each call, demand 3 over any sequence of
// calls of both ends. And `limits`, the only code: it has no effect, its promise is a law of all states and samples.
#![tactic(auto)]

ghost use Rattle.std.specs.Prelude.{◌≡◌, true, length};
ghost use Rattle.math_lists.specs.Every.{every};
ghost use Rattle.standard.specs.House.{sound_coder};
ghost use Rattle.law_arithmetic.specs.Within.{word};
ghost use Rattle.law_limits.specs.Words.{Carried};
ghost use Rattle.law_limits.specs.Sums.{SixSums};
ghost use Rattle.law_limits.specs.Shifts.{LeftShifts};
ghost use Rattle.encoder.specs.Promise.{coder};

use encoder::Encoder;

// House rules, 'Six sums' and 'Left shifts', of every state and all samples that code can hold: the state is `Carried`,
// by its types, so the six sums hold if it is sound, and the left shifts in any case. To read an array proves that it
// holds words; the compiler removes the reading.
pub fn limits(e: Encoder, samples: &[i16])
    ensures carried { Carried (coder e) × (every word samples.now ≡ true) }
    ensures sums { sound_coder (coder e) ≡ true → length samples.now ≡ 160
        → SixSums (coder e) samples.now }
    ensures shifts { length samples.now ≡ 160 → LeftShifts (coder e) samples.now }
{
    long_search::each_a_word(&e.larpp);
    long_search::each_a_word(&e.u);
    long_search::each_a_word(&e.dp);
    long_search::each_a_word(samples);
}
