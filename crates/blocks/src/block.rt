// A lent block that is well formed. Where it is asked for, its size and its parts need no clause.
ghost use Rattle.std.specs.Prelude.{◌≡◌, ◌≤◌, true, length, List, ℕ, Ok, Err, MatchResult};
ghost use Rattle.joints.specs.Layout.{kinds_of, joints_of};
ghost use Rattle.blocks.specs.Layout.{block_size, table_of};
ghost use Rattle.blocks.specs.WellFormed.{well_formed, block_reply};

use joints::Session;
use kinds::Table;
use replies::{Cause, Refusal};
use std::marker::Model;

// A clause sees the bytes.
#[derive(Drop)]
pub struct Block<'a> {
    bytes: &'a [u8],
}

impl<'a> Model for Block<'a> {
    ghost Value = { List ℕ };

    ghost view = { λ b. b.bytes.now };

    ghost invariant = { λ b. (length b.bytes.now ≡ block_size) × (well_formed b.bytes.now ≡ true) };
}

impl<'a> Block<'a> {
    // What is lent, taken as a block; refused with 1 where it has not the size of one, with 4 where it is not well formed.
    pub fn of(bytes: &'a [u8]) -> Result<Self, Refusal>
        ensures { MatchResult result (λ block. (block ≡ bytes.now) × (block_reply bytes.now ≡ Ok 0)) (λ refusal. block_reply bytes.now ≡ Err refusal) }
    {
        if !crate::has_size(bytes) {
            return Err(Refusal(Cause::BadSize, 0));
        }
        if !crate::well_formed(bytes) {
            return Err(Refusal(Cause::BadBlock, 0));
        }
        Ok(Block { bytes })
    }

    // The session's own bytes.
    pub fn session(&self) -> Session<'a>
        ensures { result ≡ self.now }
    {
        Session::of(self.bytes)
    }

    // n, the number of kinds.
    pub fn kind_count(&self) -> usize
        ensures count { result ≡ kinds_of self.now }
        ensures in_range { (2 ≤ result) × (result ≤ 64) }
    {
        usize::from(Session::of(self.bytes).kind_count())
    }

    // V, the number of joints.
    pub fn joint_count(&self) -> usize
        ensures count { result ≡ joints_of self.now }
        ensures in_range { (1 ≤ result) × (result ≤ 64) }
    {
        usize::from(Session::of(self.bytes).joint_count())
    }

    // The kind table.
    pub fn kind_table(&self) -> Table<'a>
        ensures { (result.n ≡ kinds_of self.now) × (result.entries.now ≡ table_of self.now) }
    {
        Table {
            entries: crate::kind_table(self.bytes),
            n: self.kind_count(),
        }
    }
}
