//! One word of 64 bits.

ghost use Rattle.std.specs.Prelude.{◌≡◌, ◌≢◌, ◌<◌, ◌≤◌, ℕ, ◌↔◌, IsTrue, MatchOption};
ghost use Rattle.std.specs.Int.{bit_at};

/// Whether the bit at this place, 0 to 63, is 1.
pub fn has(word: u64, place: u32) -> bool
    requires { place < 64 }
    ensures { IsTrue result ↔ (bit_at word place ≡ 1) }
{
    word & (1 << place) != 0
}

/// The word with the bit at this place 1 or 0.
pub fn with(word: u64, place: u32, value: bool) -> u64
    requires { place < 64 }
    ensures here { (bit_at result place ≡ 1) ↔ IsTrue value }
    ensures others { (i : ℕ) → i < 64 → i ≢ place → bit_at result i ≡ bit_at word i }
{
    if value {
        word | (1 << place)
    } else {
        word & !(1 << place)
    }
}

/// The bits of the word below this place, and all others 0.
pub fn below(word: u64, place: u32) -> u64
    requires { place < 64 }
    ensures kept { (i : ℕ) → i < place → bit_at result i ≡ bit_at word i }
    ensures none { (i : ℕ) → place ≤ i → bit_at result i ≡ 0 }
{
    word & ((1 << place) - 1)
}

/// The highest place with a 1. None exactly if the word is 0.
pub fn highest(word: u64) -> Option<u32>
    ensures { MatchOption result (word ≡ 0)
        (λ place. (place < 64) × (bit_at word place ≡ 1) × ((i : ℕ) → place < i → bit_at word i ≡ 0)) }
{
    if word == 0 { None } else { Some(word.ilog2()) }
}
