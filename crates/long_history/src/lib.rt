// The history of either end: the last 120 samples of dp. Within a frame it stands at the front of one list, and what
// the four sub-frames add stands after it, so that nothing is moved.
#![tactic(auto)]

ghost use Rattle.std.specs.Prelude.{◌≡◌, ◌++◌, pos, length, replicate};

// A list of 280: the history, and after it zeros where the four sub-frames store 160 samples.
pub fn remembered(dp: [i16; 120]) -> [i16; 280]
    ensures { result ≡ dp ++ replicate 160 (pos 0) }
{
    let mut all = [0i16; 280];
    all[..120].copy_from_slice(&dp);
    all
}

// A copy of 120 samples as an array. The callers pass the last 120 of the list: the history for the next frame.
pub fn last(dp: &[i16]) -> [i16; 120]
    requires { length dp.now ≡ 120 }
    ensures { result ≡ dp.now }
{
    let mut kept = [0i16; 120];
    kept.copy_from_slice(dp);
    kept
}
