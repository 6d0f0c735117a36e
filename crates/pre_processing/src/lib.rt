// 4.2.1 to 4.2.3: downscaling, offset compensation, pre-emphasis. From a sound state the offset filter never saturates
// (house rules, 'Six sums' (a)). So its multiplication of 31 by 16 bits and its sums are plain ones on 32 bits.
#![tactic(auto)]

ghost use Rattle.std.specs.Prelude.{◌≡◌, true, ◌≤◌, pos, ◌+ℤ◌, ◌*ℤ◌, nat_abs, length};
ghost use Rattle.math_lists.specs.Scan.{run};
ghost use Rattle.std.specs.Int.Signed.{shr_z};
ghost use Rattle.std.specs.Int.{w16};
ghost use Rattle.standard.specs.Arithmetic.{up};
ghost use Rattle.standard.specs.Preprocessing.{downscaled, offset, emphasis};
ghost use Rattle.law_soundness.specs.Ranges.{L_z2_range};
ghost use Rattle.law_soundness.specs.Decay.{decayed};
ghost use Rattle.law_soundness.specs.Offset.{sound_offset};
ghost use Rattle.pre_processing.specs.Promise.{kept};

// 4.2.2: z1 and L_z2, which are kept for the next sample and the next frame.
#[derive(Clone, Copy)]
pub struct Kept {
    pub z1: i16,
    pub l_z2: i32,
}

// House rules, 'Soundness': z1 and the difference L_z2 - 32768 * z1 are in their ranges.
pub fn sound(m: Kept) -> bool
    ensures { result ≡ sound_offset (kept m) }
{
    let z1 = i32::from(m.z1);
    let centre = z1 * 32768;
    (-16384..=16380).contains(&z1) && (centre - 536740337..=centre + 536871409).contains(&m.l_z2)
}

// 4.2.1: so[k] of a sample; its low 3 bits are ignored.
fn downscale(sop: i16) -> i16
    ensures { result ≡ up w16 (shr_z sop 8) 2 }
{
    (sop >> 3) << 2
}

// 4.2.2: the next L_z2. The two parts of the old one, msp and lsp, are multiplied separately.
fn recursive(l_z2: i32, s1: i32) -> i32
    requires { (L_z2_range l_z2 ≡ true) × (nat_abs s1 ≤ 32764) }
    ensures { result ≡ pos 32768 *ℤ s1 +ℤ decayed l_z2 }
{
    let msp = l_z2 >> 15;
    let lsp = l_z2 - (msp << 15);
    (s1 << 15) + msp * 32735 + ((lsp * 32735 + 16384) >> 15)
}

// 4.2.2: sof[k] of L_z2.
fn rounded(l_z2: i32) -> i16
    requires { L_z2_range l_z2 ≡ true }
    ensures { result ≡ shr_z (l_z2 +ℤ pos 16384) 32768 }
{
    ((l_z2 + 16384) >> 15) as i16
}

// 4.2.1, 4.2.2: from samples to sof. The writes go by index: of a slice that is written through `iter_mut().zip(..)` a
// proof knows only the length afterwards.
pub fn offset(m: Kept, sop: &[i16], sof: &mut [i16]) -> Kept
    requires { (length sof.old ≡ length sop.now) × (sound_offset (kept m) ≡ true) }
    ensures state { kept result ≡ (run offset (kept m) (downscaled sop.now)).0 }
    ensures samples { sof.new ≡ (run offset (kept m) (downscaled sop.now)).1 }
{
    let Kept { mut z1, mut l_z2 } = m;
    for (k, &x) in sop.iter().enumerate() {
        let so = downscale(x);
        l_z2 = recursive(l_z2, i32::from(so) - i32::from(z1));
        z1 = so;
        sof[k] = rounded(l_z2);
    }
    Kept { z1, l_z2 }
}

// 4.2.3: from sof to s. No output is fed back, so the compiler can compute several samples at once.
pub fn emphasis(mp: i16, sof: &[i16], s: &mut [i16]) -> i16
    requires { length s.old ≡ length sof.now }
    ensures mp { result ≡ (run emphasis mp sof.now).0 }
    ensures samples { s.new ≡ (run emphasis mp sof.now).1 }
{
    let mut last = mp;
    for (k, &now) in sof.iter().enumerate() {
        s[k] = op_words::add(now, op_words::mult_r(last, -28180));
        last = now;
    }
    last
}
