// 4.4: the tables, as constant arrays. Coefficient i of tables 4.1 and 4.2, from 1 to 8, stands at index i - 1. Beyond
// its end a table gives 0, in the definition too, so the caller has nothing to prove.
#![tactic(auto)]

ghost use Rattle.std.specs.Prelude.{◌≡◌};
ghost use Rattle.standard.specs.Tables.{◌at◌};
ghost use Rattle.standard.specs.Tables as table;

// The entry of a table at an index.
fn entry(table: &[i16], i: usize) -> i16
    ensures { result ≡ table.now at i }
{
    table.get(i).copied().unwrap_or(0)
}

const A: [i16; 8] = [20480, 20480, 20480, 20480, 13964, 15360, 8534, 9036];

// Table 4.1: the scale of a Log.-Area Ratio.
#[tactic(auto, unfolding(standard::specs::Tables::A))]
pub fn lar_a(i: usize) -> i16
    ensures { result ≡ table.A at i }
{
    entry(&A, i)
}

const B: [i16; 8] = [0, 0, 2048, -2560, 94, -1792, -341, -1144];

// Table 4.1: its offset.
#[tactic(auto, unfolding(standard::specs::Tables::B))]
pub fn lar_b(i: usize) -> i16
    ensures { result ≡ table.B at i }
{
    entry(&B, i)
}

const MIC: [i16; 8] = [-32, -32, -16, -16, -8, -8, -4, -4];

// Table 4.1: the least code, before it is made positive.
#[tactic(auto, unfolding(standard::specs::Tables::MIC))]
pub fn lar_mic(i: usize) -> i16
    ensures { result ≡ table.MIC at i }
{
    entry(&MIC, i)
}

const MAC: [i16; 8] = [31, 31, 15, 15, 7, 7, 3, 3];

// Table 4.1: the greatest.
#[tactic(auto, unfolding(standard::specs::Tables::MAC))]
pub fn lar_mac(i: usize) -> i16
    ensures { result ≡ table.MAC at i }
{
    entry(&MAC, i)
}

const INVA: [i16; 8] = [13107, 13107, 13107, 13107, 19223, 17476, 31454, 29708];

// Table 4.2: 1 / A.
#[tactic(auto, unfolding(standard::specs::Tables::INVA))]
pub fn lar_inva(i: usize) -> i16
    ensures { result ≡ table.INVA at i }
{
    entry(&INVA, i)
}

const DLB: [i16; 4] = [6554, 16384, 26214, 32767];

// Table 4.3a: the gain's decision levels.
#[tactic(auto, unfolding(standard::specs::Tables::DLB))]
pub fn gain_dlb(i: usize) -> i16
    ensures { result ≡ table.DLB at i }
{
    entry(&DLB, i)
}

const QLB: [i16; 4] = [3277, 11469, 21299, 32767];

// Table 4.3b: the gain's quantization levels.
#[tactic(auto, unfolding(standard::specs::Tables::QLB))]
pub fn gain_qlb(i: usize) -> i16
    ensures { result ≡ table.QLB at i }
{
    entry(&QLB, i)
}

const H: [i16; 11] = [-134, -374, 0, 2054, 5741, 8192, 5741, 2054, 0, -374, -134];

// Table 4.4: the weighting filter's taps.
#[tactic(auto, unfolding(standard::specs::Tables::H))]
pub fn tap_h(i: usize) -> i16
    ensures { result ≡ table.H at i }
{
    entry(&H, i)
}

const NRFAC: [i16; 8] = [29128, 26215, 23832, 21846, 20165, 18725, 17476, 16384];

// Table 4.5: the inverse mantissa.
#[tactic(auto, unfolding(standard::specs::Tables::NRFAC))]
pub fn mantissa_nrfac(i: usize) -> i16
    ensures { result ≡ table.NRFAC at i }
{
    entry(&NRFAC, i)
}

const FAC: [i16; 8] = [18431, 20479, 22527, 24575, 26623, 28671, 30719, 32767];

// Table 4.6: the direct mantissa.
#[tactic(auto, unfolding(standard::specs::Tables::FAC))]
pub fn mantissa_fac(i: usize) -> i16
    ensures { result ≡ table.FAC at i }
{
    entry(&FAC, i)
}
