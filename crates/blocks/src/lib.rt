// Session blocks: the session's own bytes come first (crate `joints`), the kind table's room behind them (`table`).
#![tactic(auto)]

ghost use Rattle.std.specs.Prelude.{◌≡◌, ◌≤◌, eqb, length};
ghost use Rattle.kinds.specs.Sizes.{Sized};
ghost use Rattle.joints.specs.Layout.{kinds_of};
ghost use Rattle.blocks.specs.Layout.{block_size, table_of, fresh_block};
ghost use Rattle.blocks.specs.WellFormed.{well_formed, block_reply};

pub use block::Block;
use joints::{SESSION, Session};

mod block;
mod table;

// How many bytes a block has.
pub const BLOCK: usize = 5250;

// Whether what is lent has the size of a block.
pub fn has_size(block: &[u8]) -> bool
    ensures { result ≡ eqb (length block.now) block_size }
{
    block.len() == BLOCK
}

// The kind table, n × n bytes, of a block that a clause tells to be well formed: making a `Block` of it would look at all of it again.
pub fn kind_table(block: &[u8]) -> &[u8]
    requires { (length block.now ≡ block_size) × (kinds_of block.now ≤ 64) }
    ensures { result.now ≡ table_of block.now }
{
    let n = usize::from(Session::of(block).kind_count());
    let end = SESSION + n * n;
    &block[SESSION..end]
}

// Whether a block of the right size is well formed.
fn well_formed(block: &[u8]) -> bool
    requires { length block.now ≡ block_size }
    ensures { result ≡ well_formed block.now }
{
    let session = Session::of(block);
    let n = usize::from(session.kind_count());
    table::table_fits(&block[SESSION..BLOCK], n) && fitting::joints_fit(&session, n)
}

// Writes the whole block as opening leaves it.
pub fn write_fresh(n: u8, v: u8, table: &[u8], block: &mut [u8])
    requires fact_1 { length block.old ≡ block_size }
    requires fact_2 { Sized n table.now }
    requires fact_3 { (1 ≤ v) × (v ≤ 64) }
    ensures { block.new ≡ fresh_block n v table.now }
{
    joints::write_fresh(&mut block[0..SESSION], n, v);
    table::write_table(&mut block[SESSION..BLOCK], table);
}
