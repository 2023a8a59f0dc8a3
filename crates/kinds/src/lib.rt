// Kinds: a table of them, n × n bytes, and the meet of two of them in it, as a byte and as a kind. The definitions and the laws that it stands
// on are in specs/ and proofs/.
#![tactic(auto)]

ghost use Rattle.std.specs.Prelude.{◌≡◌, ◌*◌, ◌<◌, ◌≤◌, length};
ghost use Rattle.kinds.specs.Kinds.{meet_at};
ghost use Rattle.kinds.specs.Sizes.{Sized, AllKinds};

// A table of n kinds, a byte for each two of them. Nothing is known of its entries.
#[derive(Clone, Copy)]
pub struct Table<'a> {
    pub entries: &'a [u8],
    pub n: usize,
    pub ghost sized: { Sized n entries.now },
}

impl<'a> Table<'a> {
    ghost use Rattle.kinds.specs.Tables.{meet_of};

    // The entry for i and j.
    pub fn meet(self, i: usize, j: usize) -> u8
        requires { (i < self.n) × (j < self.n) }
        ensures { result ≡ meet_of self.entry i j }
    {
        meet(self.entries, self.n, i, j)
    }
}

// A table whose entries are kinds.
#[derive(Clone, Copy)]
pub struct KindTable<'a> {
    pub table: Table<'a>,
    pub ghost kinds: { AllKinds table.n table.entries.now },
}

impl<'a> KindTable<'a> {
    ghost use Rattle.kinds.specs.Tables.{meet_of};

    // The meet of two kinds.
    pub fn kind_at(self, i: usize, j: usize) -> usize
        requires { (i < self.table.n) × (j < self.table.n) }
        ensures { (result ≡ meet_of self.entry.table i j) × (result < self.entry.table.n) }
    {
        usize::from(self.table.meet(i, j))
    }
}

// The same of a table that is lent as bytes. docs/DECISIONS.md names it, and it does not ask that n is 2 or more, as a `Table` does.
pub fn meet(table: &[u8], n: usize, i: usize, j: usize) -> u8
    requires { (n ≤ 64) × (length table.now ≡ n * n) × (i < n) × (j < n) }
    ensures { result ≡ meet_at n table.now i j }
{
    table[i * n + j]
}
