// Taking a packet of facts: all of them or none.
#![tactic(auto)]

ghost use Rattle.replies.specs.Replies.{Reply, refusal};
ghost use Rattle.std.specs.Prelude.{◌≡◌, map, ◌+◌, ◌*◌, ◌<◌, ◌≤◌, length, Ok, MatchResult};
ghost use Rattle.kinds.specs.Tables.{meet_of};
ghost use Rattle.meaning.specs.Picture.{rename};
ghost use Rattle.meaning.specs.Form.{rig_joint};
ghost use Rattle.meaning.specs.Solving.{rig_number};
ghost use Rattle.packets.specs.Packet.{fact_at};
ghost use Rattle.packets.specs.Facts.{fact_of, rig_facts};
ghost use Rattle.meaning.specs.Decoding.{decoded};
ghost use Rattle.screening.specs.Screening.{packet_reply, facts_wanted};
ghost use Rattle.replies.specs.declared.Cause.{Cause};
ghost use Rattle.solver.specs.Unpacked.{form_of, node_fact, Named, Ready, Folded};
ghost use Rattle.joints.specs.Storing.{with_form};
ghost use Rattle.joints.specs.Layout.{session_size};
ghost use Rattle.taking.specs.Take.{take_refusal, Take};
ghost use Rattle.taking.specs.Solve.{Solves};

use blocks::Block;
use joints::Session;
use kinds::Table;
use meaning::RigFact;
use replies::{Cause, Refusal, Reply};
use solver::{NodeFact, Rows, Solved};

// A fact on rig joints, as one on nodes: rig joint j is node j.
#[tactic(auto, using(meaning::proofs::Decoding::renamed_by))]
fn rig_node_fact(fact: RigFact) -> NodeFact
    ensures { node_fact result ≡ rename rig_number (decoded fact) }
{
    fact.map(|j| j.0)
}

// The i-th fact of a packet, on nodes.
fn nth_fact(packet: &[u8], i: usize) -> NodeFact
    requires { (6 ≤ length packet.now) × (i < 65536) × (fact_at packet.now i + 4 ≤ length packet.now) }
    ensures { node_fact result ≡ rename rig_number (fact_of rig_joint packet.now (fact_at packet.now i)) }
{
    rig_node_fact(packets::rig_fact(packet, packets::fact_at(packet, i)))
}

// The packet's facts taken one after another. Where one clashes, how many were taken before it.
fn with_facts(
    form: &mut Solved,
    rows: &mut Rows,
    table: Table<'_>,
    v: usize,
    packet: &[u8],
) -> Result<(), usize>
    requires ready { Ready table.n v table.entries.now (form_of form.old rows.old) × Named form.old.top (form_of form.old rows.old) }
    requires packet_value { packet_reply (facts_wanted v) table.n v packet.now ≡ Ok 0 }
    ensures { Folded table.entry.n (meet_of table.entry) v (form_of form.old rows.old)
        (map (rename rig_number) (rig_facts packet.now)) result (form_of form.new rows.new) }
{
    let count = packets::fact_count(packet);
    form.take_all(rows, table, v, count, |i| nth_fact(packet, i))
}

// Replies 1 and 4 to 9; done where none fits.
fn refusal(block: &[u8], packet: &[u8]) -> Reply
    ensures { result ≡ take_refusal block.now packet.now }
{
    let block = Block::of(block)?;
    screening::facts_reply(packet, block.kind_count(), block.joint_count())
}

// The form stored in the block, where all facts were taken; where they clash, nothing is.
fn store(block: &mut [u8], class: &[u8], kind: &[u8], rows: &Rows, taken: Result<(), usize>)
    requires { (session_size ≤ length block.old) × (64 ≤ length class.now) × (64 ≤ length kind.now) }
    ensures { MatchResult taken (λ _. block.new ≡ with_form block.old class.now kind.now rows.now) (λ _. block.new ≡ block.old) }
{
    if taken.is_ok() {
        joints::store(block, class, kind, rows);
    }
}

// The packet's facts taken with those of the block, and the form stored in it. The number of joins; or where they clash, how many were taken
// before the one that does, and nothing is stored.
fn solve(block: &mut [u8], packet: &[u8]) -> Result<u32, usize>
    requires { take_refusal block.old packet.now ≡ Ok 0 }
    ensures { Solves block.old packet.now result block.new }
{
    let session = Session::of(block);
    let n = usize::from(session.kind_count());
    let v = usize::from(session.joint_count());
    let before = solver::classes_in(session.classes(), v);
    let mut rows = [0u8; 1536];
    let mut form = unpacking::unpack(&mut rows, &session, v, 0);
    let entries = blocks::kind_table(block);
    let table = Table { entries, n };
    let taken = with_facts(&mut form, &mut rows, table, v, packet);
    store(block, &form.class, &form.kind, &rows, taken);
    taken?;
    let joins = before - solver::classes_in(&form.class, v);
    Ok(joins as u32)
}

// The reply to a clash at a fact. A packet for taking has no ties, so that its facts stand from byte 6 on.
fn clash_at(at: usize) -> Reply
    requires { at ≤ 1088 }
    ensures { result ≡ refusal Cause.Clash (6 + 4 * at) }
{
    Err(Refusal(Cause::Clash, (6 + 4 * at) as u32))
}

// Takes all facts of the packet, or none.
pub fn take(block: &mut [u8], packet: &[u8]) -> Reply
    ensures { Take block.old packet.now result block.new }
{
    refusal(block, packet)?;
    match solve(block, packet) {
        Ok(joins) => Ok(joins),
        Err(at) => clash_at(at),
    }
}
