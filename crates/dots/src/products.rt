// The products of a few weights and words, before they are divided.
ghost use Rattle.std.specs.Prelude.{◌≡◌, ◌+◌, ◌*◌, ◌<◌, length, get_or};
ghost use Rattle.dots.specs.Dots.{Dots};
ghost use Rattle.dots.specs.Inner.{EachGains};

use field::word;

// What each coordinate gains by word i.
pub fn gains(weights: &[u32], words: &[u32], i: usize) -> [u64; 4]
    requires { Dots weights.now words.now × (i < length words.now) }
    ensures { EachGains weights.now words.now i result }
{
    std::array::from_fn(
        |k|
            requires { Dots weights.now words.now × (i < length words.now) × (k < 4) }
            ensures { result ≡ get_or weights.entry.now (4 * i + k) 0 * get_or words.entry.now i 0 }
        { gain(weights, words, i, k) },
    )
}

// What coordinate k gains by word i.
#[tactic(auto, using(crate::proofs::Summing::both_below))]
fn gain(weights: &[u32], words: &[u32], i: usize, k: usize) -> u64
    requires { Dots weights.now words.now × (i < length words.now) × (k < 4) }
    ensures { result ≡ get_or weights.now (4 * i + k) 0 * get_or words.now i 0 }
{
    word::wide(weights[4 * i + k], words[i])
}
