// A fast test of all laws of a table, which looks at each pair of kinds once and at no triple. Each kind gets a mask of 64 bits. If the mask
// of meet(i,j) is the `&` of the masks of i and j, and no two kinds have one mask, then meet is associative, because `&` is: this holds
// whatever the masks are. So nothing is proved of how they are made, since the test itself looks at all that it needs of them. Masks that do
// not serve make it say "no", which costs its caller time and never an answer.
//
// Masks are made for all kinds alike, without a test of any. A kind is its number, so the loops and chains over kinds count.
#![tactic(auto)]

ghost use Rattle.std.specs.Prelude.{◌≡◌, true, ℕ, ◌+◌, ◌*◌, ◌<◌, ◌≤◌, length};
ghost use Rattle.std.specs.Int.Count.{ones};
ghost use Rattle.kinds.specs.Laws.{Lawful};
ghost use Rattle.kinds.specs.Sizes.{AllKinds};
ghost use Rattle.kinds.specs.Tables.{meet_of};
ghost use Rattle.masks.specs.Masks.{Single, Embedded, Apart, crosswise, kind_of};

use kinds::{KindTable, Table};

// Whether every entry is a kind: the largest is looked for, which takes many at once, and compared once.
fn all_kinds(table: Table<'_>) -> bool
    ensures { result ≡ true → AllKinds table.entry.n table.entry.entries.now }
{
    let most = table
        .entries
        .iter()
        .fold(0, |most, &x| runs::larger(most, x));
    usize::from(most) < table.n
}

// Whether the laws of i alone hold.
fn single_holds(table: Table<'_>, i: usize) -> bool
    requires { i < table.n }
    ensures { result ≡ true → Single (meet_of table.entry) i }
{
    let x = i as u8;
    table.meet(i, i) == x && table.meet(0, i) == 0 && table.meet(1, i) == x
}

// Whether the laws of one kind hold.
fn singles_hold(table: Table<'_>) -> bool
    ensures { result ≡ true → (i : ℕ) → i < table.entry.n → Single (meet_of table.entry) i }
{
    (0..table.n).all(|i| single_holds(table, i))
}

// The place of kind k's bit in a mask, and the kind whose bit has place k. A mask is eight bytes of eight bits, and the kinds are counted
// crosswise, so that eight kinds that follow one another have one bit in each byte.
#[tactic(auto, unfolding(crate::specs::Masks::crosswise))]
fn crossed(k: usize) -> usize
    requires { k ≤ 64 }
    ensures { result ≡ crosswise k }
{
    8 * (k % 8) + k / 8
}

// Eight entries, the first lowest.
fn word(table: &[u8], at: usize) -> u64
    requires { at + 8 ≤ length table.now }
{
    u64::from_le_bytes(table[at..at + 8].try_into().unwrap())
}

// Eight kinds from k on, as the entries would be that name them.
fn word_from(k: usize) -> u64
    requires { k ≤ 64 }
{
    0x0706050403020100 + 0x0101010101010101 * (k as u64)
}

// The lowest bit of each byte that is the same in both, where all bytes are below 128.
fn agreeing(x: u64, y: u64) -> u64 {
    let differing = (((x ^ y) & 0x7f7f7f7f7f7f7f7f) + 0x7f7f7f7f7f7f7f7f) >> 7;
    (differing & 0x0101010101010101) ^ 0x0101010101010101
}

// Adds to each mask the bits of the eight kinds from 8 × k on. By index: through `iter_mut().enumerate()`, here and in `add_rest`, the test of a
// table took 4 % longer at 64 kinds and 20 % at 8.
fn add_eight(all: &mut [u64; 64], table: Table<'_>, k: usize)
    requires { 8 * k + 8 ≤ table.n }
{
    let eight = word_from(8 * k);
    for i in 0..table.n {
        all[i] |= agreeing(word(table.entries, i * table.n + 8 * k), eight) << k;
    }
}

// The bit of k, if k is under i.
#[tactic(auto, using(crate::proofs::Seen::crosswise_lt))]
fn bit_at(table: Table<'_>, i: usize, k: usize) -> u64
    requires { (i < table.n) × (k < table.n) }
{
    if usize::from(table.meet(i, k)) == k {
        1u64 << crossed(k)
    } else {
        0
    }
}

// The bits of the kinds behind the last eight that are under i.
fn rest_of(table: Table<'_>, i: usize) -> u64
    requires { i < table.n }
{
    (table.n / 8 * 8..table.n).fold(0, |mask, k| mask | bit_at(table, i, k))
}

// Adds them to each mask.
fn add_rest(all: &mut [u64; 64], table: Table<'_>) {
    for i in 0..table.n {
        all[i] |= rest_of(table, i);
    }
}

// A mask for each kind: a bit for each kind under it. For a lawful table these serve: no two kinds have the same kinds under them, and under
// meet(i,j) are those that are under both. Only speed rests on that.
fn masks(table: Table<'_>) -> [u64; 64] {
    let mut all = [0u64; 64];
    for k in 0..table.n / 8 {
        add_eight(&mut all, table, k);
    }
    add_rest(&mut all, table);
    all
}

// Whether i and j commute and the masks are right for them: that of meet(i,j) is the `&` of theirs.
fn pair_holds(kinds: KindTable<'_>, all: &[u64; 64], i: usize, j: usize) -> bool
    requires { (i < kinds.table.n) × (j < kinds.table.n) }
    ensures { result ≡ true → Embedded (meet_of kinds.entry.table) all.now i j }
{
    let x = kinds.kind_at(i, j);
    x == kinds.kind_at(j, i) && all[x] == all[i] & all[j]
}

// Whether that is so for i and each j below it.
fn row_holds(kinds: KindTable<'_>, all: &[u64; 64], i: usize) -> bool
    requires { i < kinds.table.n }
    ensures { result ≡ true → (j : ℕ) → j < i → Embedded (meet_of kinds.entry.table) all.now i j }
{
    (0..i).all(|j| pair_holds(kinds, all, i, j))
}

// Whether it is so for every two kinds.
fn pairs_hold(kinds: KindTable<'_>, all: &[u64; 64]) -> bool
    ensures { result ≡ true → (i : ℕ) → i < kinds.entry.table.n → (j : ℕ) → j < i → Embedded (meet_of kinds.entry.table) all.now i j }
{
    (0..kinds.table.n).all(|i| row_holds(kinds, all, i))
}

fn rank(mask: u64) -> usize
    ensures { (result ≡ ones mask) × (result ≤ 64) }
{
    mask.count_ones() as usize
}

// The kinds with as many under them as the place says, a bit for each.
#[tactic(auto, using(crate::proofs::Seen::crosswise_lt))]
fn by_rank(all: &[u64; 64], n: usize) -> [u64; 65]
    requires { n ≤ 64 }
{
    let mut ranks = [0u64; 65];
    for (i, &mask) in all[..n].iter().enumerate() {
        ranks[rank(mask)] |= 1u64 << crossed(i);
    }
    ranks
}

// The kind that a mask says it is the mask of: that of its rank which is under it. Any function would do that looks at the mask alone.
#[tactic(auto, using(crate::proofs::Seen::kind_read))]
fn kind_of(ranks: &[u64; 65], mask: u64) -> usize
    ensures { result ≡ kind_of ranks.now mask }
{
    let own = ranks[rank(mask)] & mask;
    crossed(own.trailing_zeros() as usize)
}

// Whether the masks of the kinds give them back, so that no two kinds have one mask.
fn apart(all: &[u64; 64], n: usize) -> bool
    requires { n ≤ 64 }
    ensures { result ≡ true → Apart n all.now }
{
    let ranks = by_rank(all, n);
    (0..n).all(|k| kind_of(&ranks, all[k]) == k)
}

// Whether the table is lawful. A "no" says nothing.
pub fn lawful(table: Table<'_>) -> bool
    ensures { result ≡ true → Lawful table.entry.n (meet_of table.entry) }
{
    if !all_kinds(table) || !singles_hold(table) {
        return false;
    }
    let all = masks(table);
    pairs_hold(KindTable { table }, &all) && apart(&all, table.n)
}
