// 4.3.4 to 4.3.7: the synthesis lattice and de-emphasis, sample by sample in one loop; doubling and truncation in
// another. In the lattice each step needs the result of the one before, so the lattice decides the decoder's speed.
// Therefore a sample is first computed with plain sums. They nearly always stay in 16 bits. If one does not, the sample
// is computed again with the sums of 4.3.4, which saturate.
#![tactic(auto)]

ghost use Rattle.std.specs.Prelude.{◌≡◌, true, ◌+ℤ◌, ◌-ℤ◌, length, List, IfSome};
ghost use Rattle.std.specs.Int.{w16};
ghost use Rattle.math_lists.specs.Every.{every};
ghost use Rattle.standard.specs.Arithmetic.{clip, add, sub, mult_r};
ghost use Rattle.standard.specs.Decoder.{synthesised, de_emphasis, srop};
ghost use Rattle.law_arithmetic.specs.Within.{word};
ghost use Rattle.short_ratios.specs.Bounds.{factor};
ghost use Rattle.short_synthesis.specs.Speech.{spoken};
ghost use Rattle.short_synthesis.specs.Lattice.{cells, lined, All, Mapped, Each, Passed, shifted};
ghost use Rattle.short_synthesis.specs.Biased.{low, lifted, base, offset};

// Eight cells v[0..7], or the eight coefficients that go with them. Fields and not an
// array: the laws of the lattice (specs/Lattice) name each of them.
#[derive(Clone, Copy)]
struct Line {
    v0: i32,
    v1: i32,
    v2: i32,
    v3: i32,
    v4: i32,
    v5: i32,
    v6: i32,
    v7: i32,
}

impl Line {
    // f of each of the eight.
    fn map<F: Fn(i32) -> i32>(self, f: F) -> Line
        requires { All (F.pre f) self }
        ensures { Mapped (F.post f) self result }
    {
        Line {
            v0: f(self.v0),
            v1: f(self.v1),
            v2: f(self.v2),
            v3: f(self.v3),
            v4: f(self.v4),
            v5: f(self.v5),
            v6: f(self.v6),
            v7: f(self.v7),
        }
    }
}

// An array of eight as a `Line`. `Line::map` does not serve: the type changes.
fn spread(a: [i16; 8]) -> Line
    ensures cells { cells result ≡ a }
    ensures words { Each word result }
{
    Line {
        v0: a[0] as i32,
        v1: a[1] as i32,
        v2: a[2] as i32,
        v3: a[3] as i32,
        v4: a[4] as i32,
        v5: a[5] as i32,
        v6: a[6] as i32,
        v7: a[7] as i32,
    }
}

// A `Line` as an array of eight.
fn gathered(l: Line) -> [i16; 8]
    requires { Each word l }
    ensures { result ≡ cells l }
{
    [
        l.v0 as i16,
        l.v1 as i16,
        l.v2 as i16,
        l.v3 as i16,
        l.v4 as i16,
        l.v5 as i16,
        l.v6 as i16,
        l.v7 as i16,
    ]
}

// sri after a section, before it saturates.
fn lowered(rrp: i32, v: i32, sri: i32) -> i32
    requires { (factor rrp ≡ true) × (word v ≡ true) × (word sri ≡ true) }
    ensures { result ≡ sri -ℤ mult_r rrp v }
{
    sri - short_ratios::term(rrp, v)
}

// The cell above a section, from its sri, before it saturates.
fn raised(rrp: i32, v: i32, sri: i32) -> i32
    requires { (factor rrp ≡ true) × (word v ≡ true) × (word sri ≡ true) }
    ensures { result ≡ v +ℤ mult_r rrp sri }
{
    v + short_ratios::term(rrp, sri)
}

// A number limited to 16 bits.
fn clipped(z: i32) -> i32
    ensures { result ≡ clip w16 z }
{
    z.clamp(-32768, 32767)
}

// A section: sri after it, and the cell above its own.
#[derive(Clone, Copy)]
struct Section {
    out: i32,
    above: i32,
}

// A section as 4.3.4 writes it: both sums saturate.
fn through(rrp: i32, v: i32, sri: i32) -> Section
    requires { (factor rrp ≡ true) × (word v ≡ true) × (word sri ≡ true) }
    ensures { Passed rrp v sri result.out result.above }
{
    let out = clipped(lowered(rrp, v, sri));
    Section {
        out,
        above: clipped(raised(rrp, v, out)),
    }
}

// The cells after a sample: the last sri, and the cell above each section but the eighth, above which none is kept.
fn shifted(s: [Section; 7]) -> Line
    ensures { result ≡ shifted s }
{
    Line {
        v0: s[0].out,
        v1: s[0].above,
        v2: s[1].above,
        v3: s[2].above,
        v4: s[3].above,
        v5: s[4].above,
        v6: s[5].above,
        v7: s[6].above,
    }
}

// One sample as 4.3.4 writes it: each sum saturates.
fn limited(r: Line, v: Line, wt: i32) -> Line
    requires { Each factor r × Each word v × (word wt ≡ true) }
    ensures { cells result ≡ (synthesised (cells v) (cells r, wt)).0 }
{
    let s7 = through(r.v7, v.v7, wt);
    let s6 = through(r.v6, v.v6, s7.out);
    let s5 = through(r.v5, v.v5, s6.out);
    let s4 = through(r.v4, v.v4, s5.out);
    let s3 = through(r.v3, v.v3, s4.out);
    let s2 = through(r.v2, v.v2, s3.out);
    let s1 = through(r.v1, v.v1, s2.out);
    let s0 = through(r.v0, v.v0, s1.out);
    shifted([s0, s1, s2, s3, s4, s5, s6])
}

// ---- The fast way. Its cells and sri are kept with 32768 added (the bias), so that one test says of a sum that it
// fits 16 bits (`lifted`). `low` of such a number is the word that it stands for (specs/Biased).

// Whether a number with the bias stands for a word.
fn is_lifted(z: i32) -> bool
    ensures { result ≡ lifted z }
{
    (0..=65535).contains(&z)
}

// What takes the bias out of a product and adds the rounding term: r * (v + 32768) + offset is r * v + 16384
// (`unbiased`).
fn offset(rrp: i32) -> i32
    requires { factor rrp ≡ true }
    ensures { result ≡ offset rrp }
{
    16384 - rrp * 32768
}

// The offset of each coefficient.
fn offsets(r: Line) -> Line
    requires { Each factor r }
    ensures { result ≡ lined offset r }
{
    r.map(offset)
}

// Eight words with the bias.
fn with_bias(l: Line) -> Line
    requires { Each word l }
    ensures { base result ≡ l }
{
    l.map(|z| z + 32768)
}

// Eight words without it.
fn without_bias(l: Line) -> Line
    requires { Each word (base l) }
    ensures { result ≡ base l }
{
    l.map(|z| z - 32768)
}

// mult_r of a coefficient and the word that a cell stands for.
fn biased(rrp: i32, c: i32, v: i32) -> i32
    requires { (factor rrp ≡ true) × (c ≡ offset rrp) × (lifted v ≡ true) }
    ensures { result ≡ mult_r rrp (low v) }
{
    (rrp * v + c) >> 15
}

// sri after a section, with the bias, before it saturates.
fn fallen(rrp: i32, c: i32, v: i32, sri: i32) -> i32
    requires { (factor rrp ≡ true) × (c ≡ offset rrp) × (lifted v ≡ true) × (lifted sri ≡ true) }
    ensures { low result ≡ low sri -ℤ mult_r rrp (low v) }
{
    sri - biased(rrp, c, v)
}

// The cell above a section, from its sri, with the bias, before it saturates.
fn risen(rrp: i32, c: i32, v: i32, sri: i32) -> i32
    requires { (factor rrp ≡ true) × (c ≡ offset rrp) × (lifted v ≡ true) × (lifted sri ≡ true) }
    ensures { low result ≡ low v +ℤ mult_r rrp (low sri) }
{
    v + biased(rrp, c, sri)
}

// sri after the eighth section, with the bias, before it saturates. wt comes without the bias: 32768 * 32768 less
// before the shift is 32768 less after it (`shifted_low`), so the difference has it. Added to wt it took two more
// instructions, and one of them in the chain from sample to sample.
fn entering(rrp: i32, c: i32, v: i32, wt: i32) -> i32
    requires { (factor rrp ≡ true) × (c ≡ offset rrp) × (lifted v ≡ true) × (word wt ≡ true) }
    ensures { low result ≡ wt -ℤ mult_r rrp (low v) }
{
    wt - ((rrp * v + (c - 1073741824)) >> 15)
}

// sri after the eighth section, by a plain sum. No cell above it is kept. None if it is not a word.
fn entered(rrp: i32, c: i32, v: i32, wt: i32) -> Option<i32>
    requires { (factor rrp ≡ true) × (c ≡ offset rrp) × (lifted v ≡ true) × (lifted wt ≡ true) }
    ensures { IfSome result (λ out. (lifted out ≡ true) × (low out ≡ sub (low wt) (mult_r rrp (low v)))) }
{
    let out = entering(rrp, c, v, wt - 32768);
    if is_lifted(out) { Some(out) } else { None }
}

// Each of the others by plain sums. If both are words, none would have saturated, and this is the section as 4.3.4 has
// it (`Passed`). Else None, after which nothing is computed: the compiler makes this a jump to the slow way.
fn tried(rrp: i32, c: i32, v: i32, sri: i32) -> Option<Section>
    requires { (factor rrp ≡ true) × (c ≡ offset rrp) × (lifted v ≡ true) × (lifted sri ≡ true) }
    ensures { IfSome result (λ s. (lifted s.out ≡ true) × Passed rrp (low v) (low sri) (low s.out) (low s.above)) }
{
    let out = fallen(rrp, c, v, sri);
    if !is_lifted(out) {
        return None;
    }
    let above = risen(rrp, c, v, out);
    if is_lifted(above) {
        Some(Section { out, above })
    } else {
        None
    }
}

// One sample by plain sums: the cells after it, where every section fits.
fn plain(r: Line, c: Line, v: Line, wt: i32) -> Option<Line>
    requires { Each factor r × (c ≡ lined offset r) × Each word (base v) × (lifted wt ≡ true) }
    ensures { IfSome result (λ l. cells (base l) ≡ (synthesised (cells (base v)) (cells r, low wt)).0) }
{
    let s7 = entered(r.v7, c.v7, v.v7, wt)?;
    let s6 = tried(r.v6, c.v6, v.v6, s7)?;
    let s5 = tried(r.v5, c.v5, v.v5, s6.out)?;
    let s4 = tried(r.v4, c.v4, v.v4, s5.out)?;
    let s3 = tried(r.v3, c.v3, v.v3, s4.out)?;
    let s2 = tried(r.v2, c.v2, v.v2, s3.out)?;
    let s1 = tried(r.v1, c.v1, v.v1, s2.out)?;
    let s0 = tried(r.v0, c.v0, v.v0, s1.out)?;
    Some(shifted([s0, s1, s2, s3, s4, s5, s6]))
}

// 4.3.4: one sample through the eight sections. v0 of what it gives is also sr[k].
fn lattice(r: Line, c: Line, v: Line, wt: i32) -> Line
    requires { Each factor r × (c ≡ lined offset r) × Each word (base v) × (lifted wt ≡ true) }
    ensures { cells (base result) ≡ (synthesised (cells (base v)) (cells r, low wt)).0 }
{
    match plain(r, c, v, wt) {
        Some(line) => line,
        None => with_bias(limited(r, without_bias(v), wt - 32768)),
    }
}

// 4.3.5: sro[k], which is also the next msr. The number subtracted is 32768 * 32768 minus the rounding term. After the
// shift this removes the bias of sr (`faded_sum`, specs/Biased).
fn de_emphasis(msr: i32, sr: i32) -> i32
    requires { (word msr ≡ true) × (lifted sr ≡ true) }
    ensures { result ≡ (de_emphasis msr (low sr)).0 }
{
    clipped(sr + ((msr * 28180 - 1073725440) >> 15))
}

// 4.3.6, 4.3.7: doubled, the low 3 bits cleared.
fn upscaled(sro: i16) -> i16
    ensures { result ≡ srop sro }
{
    (op_words::add(sro, sro) >> 3) << 3
}

// What is carried from sample to sample: the lattice's eight cells and the de-emphasis' last output.
#[derive(Clone, Copy)]
pub struct Cells {
    pub v: [i16; 8],
    pub msr: i16,
}

// A stretch of samples that have the same coefficients. The doubling of a sample does not depend on the sample before.
// So it is a loop of its own, for which the compiler makes vector code (`voiced_is`, specs/Speech: the doubling can be
// done last). The first loop has an index for srop: the check knows nothing of what is written through a `zip` of an
// `iter_mut`.
pub fn stretch(s: Cells, rrp: [i16; 8], wt: &[i16], srop: &mut [i16]) -> Cells
    requires { (length srop.old ≡ length wt.now) × (every factor rrp ≡ true) }
    ensures v { result.v ≡ (spoken s.v s.msr rrp wt.now).0.0 }
    ensures msr { result.msr ≡ (spoken s.v s.msr rrp wt.now).0.1 }
    ensures samples { srop.new ≡ (spoken s.v s.msr rrp wt.now).1 }
{
    let rp = spread(rrp);
    let c = offsets(rp);
    let mut v = with_bias(spread(s.v));
    let mut msr = s.msr as i32;
    for (k, &x) in wt.iter().enumerate() {
        v = lattice(rp, c, v, x as i32 + 32768);
        msr = de_emphasis(msr, v.v0);
        srop[k] = msr as i16;
    }
    for out in srop.iter_mut() {
        *out = upscaled(*out);
    }
    Cells {
        v: gathered(without_bias(v)),
        msr: msr as i16,
    }
}
