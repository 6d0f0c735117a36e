// 4.3.3 to 4.3.7 over a frame: the four stretches, each with its own coefficients. Each starts from the cells that the
// one before returns.
#![tactic(auto)]

ghost use Rattle.std.specs.Prelude.{◌≡◌, length};
ghost use Rattle.frame_speech.specs.Four.{frame_spoken};

use short_synthesis::Cells;

// From the reconstructed wt[0..159] to the samples. old and new are the ratios of the frame before and of this one. The
// four calls name the four stretches as the standard's table does; a loop over them would hide the samples of each
// behind a running index.
pub fn frame(s: Cells, old: [i16; 8], new: [i16; 8], wt: &[i16], srop: &mut [i16]) -> Cells
    requires { (length wt.now ≡ 160) × (length srop.old ≡ 160) }
    ensures v { result.v ≡ (frame_spoken s.v s.msr old new wt.now).0.0 }
    ensures msr { result.msr ≡ (frame_spoken s.v s.msr old new wt.now).0.1 }
    ensures samples { srop.new ≡ (frame_spoken s.v s.msr old new wt.now).1 }
{
    let first = short_synthesis::stretch(
        s,
        short_ratios::coefficients(0, old, new),
        &wt[0..13],
        &mut srop[0..13],
    );
    let second = short_synthesis::stretch(
        first,
        short_ratios::coefficients(1, old, new),
        &wt[13..27],
        &mut srop[13..27],
    );
    let third = short_synthesis::stretch(
        second,
        short_ratios::coefficients(2, old, new),
        &wt[27..40],
        &mut srop[27..40],
    );
    short_synthesis::stretch(
        third,
        short_ratios::coefficients(3, old, new),
        &wt[40..160],
        &mut srop[40..160],
    )
}
