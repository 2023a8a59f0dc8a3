// The library for a C or C++ host: every call on byte slices, its answer packed into one number. Nothing is asked of what the host lends.
// What is lent by `&` cannot be written; the contracts say what becomes of what is lent by `&mut`.
#![tactic(auto)]

ghost use Rattle.std.specs.Prelude.{◌≡◌};
ghost use Rattle.replies.specs.Replies.{packed};
ghost use Rattle.opening.specs.Open.{open_reply, open_block};
ghost use Rattle.taking.specs.Take.{Take};
ghost use Rattle.asking.specs.Ask.{Ask};
ghost use Rattle.writing.specs.Write.{write_reply, written_output};
ghost use Rattle.term_reading.specs.ReadTerm.{ReadTerm};
ghost use Rattle.term_writing.specs.WriteTerm.{WriteTerm};
ghost use Rattle.vornulica.specs.House.{house_reply, house_buffer};
ghost use Rattle.vornulica.specs.Host.{HostNumber};

use replies::{Cause, Refusal, Reply};

// Opens a session of v joints with a table of n kinds over the block.
pub fn rig_open(n: u64, v: u64, table: &[u8], block: &mut [u8]) -> u64
    ensures { (result ≡ packed (open_reply n v table.now block.old)) × (block.new ≡ open_block n v table.now block.old) }
{
    replies::to_host(opening::open(n, v, table, block))
}

// Takes all facts of the packet into the session, or none.
pub fn rig_take(block: &mut [u8], packet: &[u8]) -> u64
    ensures { HostNumber (λ reply. Take block.old packet.now reply block.new) result }
{
    replies::to_host(taking::take(block, packet))
}

// Asks a rule: the third number is the verdict.
pub fn rig_ask(block: &[u8], packet: &[u8]) -> u64
    ensures { HostNumber (λ reply. Ask block.now packet.now reply) result }
{
    replies::to_host(asking::ask(block, packet))
}

// Writes the solved form as a facts packet.
pub fn rig_write(block: &[u8], out: &mut [u8]) -> u64
    ensures { (result ≡ packed (write_reply block.now out.old)) × (out.new ≡ written_output block.now out.old) }
{
    replies::to_host(writing::write(block, out))
}

// Reads a rig typed as a term into a facts packet for the session.
pub fn rig_read_term(block: &[u8], text: &[u8], out: &mut [u8]) -> u64
    ensures { HostNumber (λ reply. ReadTerm block.now text.now out.old reply out.new) result }
{
    replies::to_host(term_reading::read(block, text, out))
}

// Writes the rig as a term from a chosen joint.
pub fn rig_write_term(block: &[u8], joint: u64, out: &mut [u8]) -> u64
    ensures { HostNumber (λ reply. WriteTerm block.now joint out.old reply out.new) result }
{
    replies::to_host(term_writing::write(block, joint, out))
}

// Writes the house table, 33 × 33 bytes.
pub fn rig_house(table: &mut [u8]) -> u64
    ensures { (result ≡ packed (house_reply table.old)) × (table.new ≡ house_buffer table.old) }
{
    if table.len() != 1089 {
        return replies::to_host(Err(Refusal(Cause::BadSize, 0)));
    }
    runs::copy(table, &house::table());
    replies::to_host(Ok(0))
}
