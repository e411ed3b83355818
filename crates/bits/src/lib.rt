// Sets of numbers, a bit for each number, 64 to a word.
#![tactic(auto)]

ghost use Rattle.std.specs.Prelude.{ℕ, Bool, ◌≡◌, not, ◌&&◌, ◌+◌, ◌*◌, ◌≤◌, ◌<◌, length, replicate};
ghost use Rattle.std.specs.Int.Count.{count_trailing_zeros};
ghost use Rattle.laws.specs.Fold.{lowest};
ghost use Rattle.bits.specs.Sets.{is_in, put_in, Tells};

// Whether x is in the set. A number past the words is in none.
#[tactic(auto, unfolding(crate::specs::Sets::is_in))]
pub fn is_in(words: &[u64], x: usize) -> bool
    ensures answer { result ≡ is_in words.now x }
{
    let word = words.get(x / 64).copied().unwrap_or(0);
    (word >> (x % 64)) % 2 == 1
}

// The set with x in it too. A number past the words changes nothing.
#[tactic(auto, unfolding(crate::specs::Sets::put_in))]
pub fn put_in(words: &mut [u64], x: usize)
    ensures set { words.new ≡ put_in words.old x }
{
    let at = x / 64;
    if at < words.len() {
        words[at] |= 1 << (x % 64);
    }
}

// Nothing is in the set.
pub fn empty(words: &mut [u64])
    ensures emptied { words.new ≡ replicate (length words.old) 0 }
{
    words.fill(0);
}

// The number that the lowest bit of word i stands for.
fn lowest_bit(i: usize, word: u64) -> usize
    requires { i < 1024 }
    ensures number { result ≡ 64 * i + count_trailing_zeros 64 word }
{
    64 * i + u64::trailing_zeros(word) as usize
}

// The lowest number that passes a test, or 64 times the count of words: the bits of each word, which `word` gives, tell of 64 numbers.
#[tactic(auto, using(crate::proofs::Lowest::none_here, crate::proofs::Lowest::lowest_nowhere))]
fn lowest_number<F: Fn(usize) -> u64>(count: usize, word: F) -> usize
    requires { (count ≤ 1024) × ((i : ℕ) → i < count → F.pre word i) }
    ensures lowest { (test : ℕ → Bool) → ((i w : ℕ) → i < count → F.post word i w → Tells test i w) → result ≡ lowest test (64 * count) (64 * count) }
{
    for i in 0..count {
        let bits = word(i);
        if bits != 0 {
            return lowest_bit(i, bits);
        }
    }
    64 * count
}

// The lowest number in the set, or 64 times the number of words.
#[tactic(auto, using(crate::proofs::Lowest::in_tells))]
pub fn lowest_in(words: &[u64]) -> usize
    requires { length words.now ≤ 1024 }
    ensures lowest { result ≡ lowest (is_in words.now) (64 * length words.now) (64 * length words.now) }
{
    lowest_number(words.len(), |i| words[i])
}

// The lowest number that is not in the set, or 64 times the number of words.
#[tactic(auto, using(crate::proofs::Lowest::out_tells))]
pub fn lowest_out(words: &[u64]) -> usize
    requires { length words.now ≤ 1024 }
    ensures lowest { result ≡ lowest (λ x. not (is_in words.now x)) (64 * length words.now) (64 * length words.now) }
{
    lowest_number(words.len(), |i| !words[i])
}

// The lowest number that is in the first set and not in the second, or 64 times the number of words.
#[tactic(auto, using(crate::proofs::Lowest::without_tells))]
pub fn lowest_without(words: &[u64], others: &[u64]) -> usize
    requires { (length words.now ≤ 1024) × (length others.now ≡ length words.now) }
    ensures lowest { result ≡ lowest (λ x. is_in words.now x && not (is_in others.now x)) (64 * length words.now) (64 * length words.now) }
{
    lowest_number(words.len(), |i| words[i] & !others[i])
}
