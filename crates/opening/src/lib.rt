// Opening a session over a lent block.
#![tactic(auto)]

ghost use Rattle.std.specs.Prelude.{◌≡◌};
ghost use Rattle.opening.specs.Open.{sizes_fit, open_reply, open_block};

use kinds::Table;
use replies::{Cause, Refusal, Reply};

// Whether n and V are in range, the table has n × n bytes and the block its size.
fn sizes_fit(n: u64, v: u64, table: &[u8], block: &[u8]) -> bool
    ensures { result ≡ sizes_fit n v table.now block.now }
{
    (2..=64).contains(&n)
        && (1..=64).contains(&v)
        && table.len() as u64 == n * n
        && blocks::has_size(block)
}

// Replies 1 to 3; done where none fits.
fn open_reply(n: u64, v: u64, table: &[u8], block: &[u8]) -> Reply
    ensures { result ≡ open_reply n v table.now block.now }
{
    if !sizes_fit(n, v, table, block) {
        return Err(Refusal(Cause::BadSize, 0));
    }
    house::check(Table {
        entries: table,
        n: n as usize,
    })
}

// Opens a session of V joints with the kinds of the table: on success the whole block is written, otherwise no byte.
pub fn open(n: u64, v: u64, table: &[u8], block: &mut [u8]) -> Reply
    ensures { (result ≡ open_reply n v table.now block.old) × (block.new ≡ open_block n v table.now block.old) }
{
    open_reply(n, v, table, block)?;
    blocks::write_fresh(n as u8, v as u8, table, block);
    Ok(0)
}
