// What the bag of an accepted block holds, asked of the block where it lies: no message is moved, and none of the loops over a bag ends
// early, so that none has a branch that nobody could foresee.
ghost use Rattle.std.specs.Prelude.{◌≡◌, ℕ, ◌<◌, ◌≤◌, eqb, length, take};
ghost use Rattle.lists.specs.Lists.{any, keep};
ghost use Rattle.line.specs.Message.{introduction, holds};
ghost use Rattle.index.specs.Index.{number_in, numbers_in};
ghost use Rattle.block.specs.Layout.{node_of, fault_of};
ghost use Rattle.allowed.specs.Parts.{of_kind, Small};

use octets::{quad_at, word_at};

// Numbers of stations, of which the first `count` count.
#[derive(Clone, Copy)]
pub(crate) struct Chosen {
    pub numbers: [u32; 64],
    pub count: usize,
}

// The number of each place: that of an introduction, 0 of a removal and past the count.
pub(crate) fn numbers_of(b: &[u8; 512]) -> [u32; 32]
    requires { fault_of b.now ≡ 0 }
    ensures { (q : ℕ) → 0 < q → any (eqb q) result ≡ holds (introduction q) (node_of b.now).bag }
{
    let n = word_at(b, 16) as usize;
    let mut numbers = [0u32; 32];
    for j in 0..n {
        numbers[j] = quad_at(b, 24 + 8 * j);
    }
    numbers
}

// Whether a message of this kind is there.
pub(crate) fn has_kind(b: &[u8; 512], kind: u16) -> bool
    requires { fault_of b.now ≡ 0 }
    ensures { result ≡ any (of_kind kind) (node_of b.now).bag }
{
    let n = word_at(b, 16) as usize;
    let mut found = false;
    for j in 0..n {
        found |= kind == word_at(b, 20 + 8 * j);
    }
    found
}

// Whether q is one of the numbers.
fn is_among(numbers: &[u32; 32], q: u32) -> bool
    ensures { result ≡ any (eqb q) numbers.now }
{
    let mut found = false;
    for number in numbers {
        found |= q == *number;
    }
    found
}

// The station number of an entry of the index.
fn number_in(entry: u64) -> u32
    requires { number_in entry < 4294967296 }
    ensures { result ≡ number_in entry }
{
    (entry / 64) as u32
}

// The stations of the index that are among the numbers, in its order. Each is stored, and the place moves on where it stays.
pub(crate) fn choose(index: &[u64], numbers: &[u32; 32]) -> Chosen
    requires { (length index.now ≤ 64) × Small (numbers_in index.now) }
    ensures { (take result.count result.numbers ≡ keep (λ (q : ℕ). any (eqb q) numbers.now) (numbers_in index.now)) × (result.count ≡ length (take result.count result.numbers)) × (result.count ≤ 64) }
{
    let mut kept = [0u32; 64];
    let mut count = 0;
    for entry in index {
        let q = number_in(*entry);
        kept[count] = q;
        count += usize::from(is_among(numbers, q));
    }
    Chosen {
        numbers: kept,
        count,
    }
}
