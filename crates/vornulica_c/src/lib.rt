// The library for a C or C++ host: what such a host links. Each export is the call of vornulica of its name, with its clauses, and an answer
// packed into one number. Nothing is asked of what the host lends. (Each call stands twice, for a crate is a library or a static library for C.)
#![tactic(auto)]

ghost use Rattle.std.specs.Prelude.{◌≡◌};
ghost use Rattle.replies.specs.Replies.{packed};
ghost use Rattle.opening.specs.Open.{open_reply, open_block};
ghost use Rattle.taking.specs.Take.{Take};
ghost use Rattle.asking.specs.Ask.{Ask};
ghost use Rattle.writing.specs.Write.{write_reply, written_output};
ghost use Rattle.term_reading.specs.ReadTerm.{ReadTerm};
ghost use Rattle.term_writing.specs.WriteTerm.{WriteTerm};
ghost use Rattle.vornulica.specs.House.{house_reply, house_buffer};
ghost use Rattle.vornulica.specs.Host.{HostNumber};

// Opens a session of v joints with a table of n kinds over the block.
#[unsafe(no_mangle)]
pub extern "C" fn rig_open(n: u64, v: u64, table: &[u8], block: &mut [u8]) -> u64
    ensures { (result ≡ packed (open_reply n v table.now block.old)) × (block.new ≡ open_block n v table.now block.old) }
{
    vornulica::rig_open(n, v, table, block)
}

// Takes all facts of the packet into the session, or none.
#[unsafe(no_mangle)]
pub extern "C" fn rig_take(block: &mut [u8], packet: &[u8]) -> u64
    ensures { HostNumber (λ reply. Take block.old packet.now reply block.new) result }
{
    vornulica::rig_take(block, packet)
}

// Asks a rule: the third number is the verdict.
#[unsafe(no_mangle)]
pub extern "C" fn rig_ask(block: &[u8], packet: &[u8]) -> u64
    ensures { HostNumber (λ reply. Ask block.now packet.now reply) result }
{
    vornulica::rig_ask(block, packet)
}

// Writes the solved form as a facts packet.
#[unsafe(no_mangle)]
pub extern "C" fn rig_write(block: &[u8], out: &mut [u8]) -> u64
    ensures { (result ≡ packed (write_reply block.now out.old)) × (out.new ≡ written_output block.now out.old) }
{
    vornulica::rig_write(block, out)
}

// Reads a rig typed as a term into a facts packet for the session.
#[unsafe(no_mangle)]
pub extern "C" fn rig_read_term(block: &[u8], text: &[u8], out: &mut [u8]) -> u64
    ensures { HostNumber (λ reply. ReadTerm block.now text.now out.old reply out.new) result }
{
    vornulica::rig_read_term(block, text, out)
}

// Writes the rig as a term from a chosen joint.
#[unsafe(no_mangle)]
pub extern "C" fn rig_write_term(block: &[u8], joint: u64, out: &mut [u8]) -> u64
    ensures { HostNumber (λ reply. WriteTerm block.now joint out.old reply out.new) result }
{
    vornulica::rig_write_term(block, joint, out)
}

// Writes the house table, 33 × 33 bytes.
#[unsafe(no_mangle)]
pub extern "C" fn rig_house(table: &mut [u8]) -> u64
    ensures { (result ≡ packed (house_reply table.old)) × (table.new ≡ house_buffer table.old) }
{
    vornulica::rig_house(table)
}
