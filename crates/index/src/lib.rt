// An index of stations by their numbers: numbers of 64 bits, 64 times the station number plus the slot where the station stands, in rising
// order (document 01, "The block": "blocks by rising station number"; "The numbers a crew may see", 6 and 7).
#![tactic(auto)]

ghost use Rattle.std.specs.Prelude.{◌≡◌, ◌+◌, ◌-◌, ◌<◌, ◌≤◌, eqb, length, take};
ghost use Rattle.lists.specs.Lists.{any};
ghost use Rattle.lists.specs.Places.{remove_at, first_at};
ghost use Rattle.lists.specs.Numbers as numbers;
ghost use Rattle.index.specs.Index as spec;
ghost use Rattle.index.specs.Index.{numbers_in};

// Whether each station number is below the next, which in a sorted index says that no two are equal.
pub fn rises(index: &[u64]) -> bool
    ensures { result ≡ numbers.rises (numbers_in index.now) }
{
    index.is_sorted_by(|entry, next| entry / 64 < next / 64)
}

// Where station q stands; the length where it does not. The entry at the lowest place left is kept beside it: the two are then chosen
// together, without a branch that nobody could foresee, and the turns depend on the length alone.
pub fn lookup(index: &[u64], q: u32) -> usize
    requires { numbers.Rising (numbers_in index.now) }
    ensures { result ≡ first_at (eqb q) (numbers_in index.now) }
{
    let n = index.len();
    if n == 0 {
        return 0;
    }
    let number = q as u64;
    // the largest entry of a station number up to q
    let top = 64 * number + 63;
    let mut low = 0;
    let mut lowest = index[0];
    let mut size = n;
    // The places left are halved at each turn: no index is counted here.
    while 1 < size {
        let half = size / 2;
        let middle = low + half;
        let entry = index[middle];
        if entry <= top {
            low = middle;
            lowest = entry;
        }
        size -= half;
    }
    if lowest / 64 == number { low } else { n }
}

// The place beside i, below it or above; below the first place there is none, and that place is given.
fn beside(i: usize, below: bool) -> usize
    requires { i < 18446744073709551615 }
    ensures { result ≤ i + 1 }
{
    if below { i.saturating_sub(1) } else { i + 1 }
}

// The same for a station that knows q: the place beside its own, on the side where q lies, is looked at first, since neighbours mostly stand
// side by side.
pub fn lookup_near(index: &[u64], q: u32, i: usize) -> usize
    requires { numbers.Rising (numbers_in index.now) × (i < length index.now) }
    ensures { result ≡ first_at (eqb q) (numbers_in index.now) }
{
    let number = q as u64;
    let near = beside(i, number < index[i] / 64);
    if near < index.len() && index[near] / 64 == number {
        return near;
    }
    lookup(index, q)
}

// Whether station q has an entry.
pub fn is_listed(index: &[u64], q: u32) -> bool
    requires { numbers.Rising (numbers_in index.now) }
    ensures { result ≡ any (eqb q) (numbers_in index.now) }
{
    lookup(index, q) < index.len()
}

// Without entry i of the first n: what stood after it goes one place down. The library's `rotate_left` needs `memmove` of whoever links the archive.
pub fn drop_entry(mut index: [u64; 64], n: usize, i: usize) -> [u64; 64]
    requires { (i < n) × (n ≤ 64) }
    ensures { take (n - 1) result ≡ remove_at i (take n index) }
{
    for j in i..n - 1 {
        index[j] = index[j + 1];
    }
    index
}

// The entry of a station number and a slot.
pub fn entry(number: u32, slot: usize) -> u64
    requires { slot < 64 }
    ensures { result ≡ spec.entry number slot }
{
    64 * (number as u64) + (slot as u64)
}
