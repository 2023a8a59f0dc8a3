// Asking a rule: its joints are nodes behind the rig's, and its ties and facts are taken there. A clash rules it out; where nothing
// new is said of the rig, and each of its joints is one with a rig joint, it applies; otherwise it waits.
#![tactic(auto)]

ghost use Rattle.std.specs.Prelude.{◌≡◌, true, false, OnOk, map, ℕ, ◌+◌, ◌*◌, ◌<◌, ◌≤◌, length, get_or, Ok};
ghost use Rattle.kinds.specs.Tables.{meet_of};
ghost use Rattle.meaning.specs.Picture.{rename};
ghost use Rattle.meaning.specs.Rule.{Judged};
ghost use Rattle.meaning.specs.Solving.{InRange};
ghost use Rattle.meaning.specs.Asking.{rule_number, rule_node, tie_fact, rule_node_facts, Settled};
ghost use Rattle.packets.specs.Packet.{joints, tie_at, fact_at};
ghost use Rattle.packets.specs.Facts.{tie_of, rule_of};
ghost use Rattle.meaning.specs.Decoding.{decoded};
ghost use Rattle.screening.specs.Screening.{packet_reply, rule_wanted};
ghost use Rattle.reach.specs.Marking.{nth_fact};
ghost use Rattle.reach.specs.Reached.{ReachReply};
ghost use Rattle.solver.specs.Unpacked.{form_of, Named, node_fact, Ready, Took};
ghost use Rattle.joints.specs.Layout.{block_form, taken};
ghost use Rattle.blocks.specs.Layout.{rig_of};
ghost use Rattle.asking.specs.Ask.{ask_refusal, Ask};

use blocks::Block;
use joints::Session;
use kinds::Table;
use meaning::{RuleFact, RuleJoint, Tie, Verdict};
use replies::Reply;
use solver::{Clash, NodeFact, Rows, Solved};

// The node of a rule joint: the rig's v joints come first.
fn rule_node(v: u8, u: RuleJoint) -> u8
    requires { v + u.0 < 256 }
    ensures { result ≡ rule_node v u }
{
    v + u.0
}

// A tie as a fact on nodes.
fn tie_fact(v: u8, tie: Tie) -> NodeFact
    requires { v + tie.rule.0 < 256 }
    ensures { node_fact result ≡ tie_fact v tie }
{
    NodeFact::Same(rule_node(v, tie.rule), tie.rig.0)
}

// A rule's fact as a fact on nodes.
#[tactic(auto, using(meaning::proofs::Decoding::renamed_by))]
fn rule_node_fact(v: u8, fact: RuleFact) -> NodeFact
    requires { (v ≤ 96) × ((n : ℕ) × InRange n 32 (rename rule_number (decoded fact))) }
    ensures { node_fact result ≡ rename (rule_node v) (decoded fact) }
{
    fact.map(|u| rule_node(v, u))
}

// The i-th tie of a rule, on nodes.
fn nth_tie(v: u8, packet: &[u8], i: usize) -> NodeFact
    requires { (i < 65536) × (tie_at i + 2 ≤ length packet.now) × (v + (tie_of packet.now (tie_at i)).rule.0 < 256) }
    ensures { node_fact result ≡ tie_fact v (tie_of packet.now (tie_at i)) }
{
    tie_fact(v, packets::tie(packet, 6 + 2 * i))
}

// The i-th fact of a rule, on nodes.
fn nth_rule_fact(v: u8, packet: &[u8], i: usize) -> NodeFact
    requires { (6 ≤ length packet.now) × (i < 65536) × (fact_at packet.now i + 4 ≤ length packet.now)
        × (v ≤ 96) × ((n : ℕ) × InRange n 32 (rename rule_number (nth_fact packet.now i))) }
    ensures { node_fact result ≡ rename (rule_node v) (nth_fact packet.now i) }
{
    rule_node_fact(v, packets::rule_fact(packet, packets::fact_at(packet, i)))
}

// The ties taken, one after the other.
fn with_ties(
    form: &mut Solved,
    rows: &mut Rows,
    table: Table<'_>,
    v: u8,
    packet: &[u8],
) -> Result<(), Clash>
    requires ready { Ready table.n (v + joints packet.now) table.entries.now (form_of form.old rows.old) × Named form.old.top (form_of form.old rows.old) }
    requires packet_value { packet_reply rule_wanted table.n v packet.now ≡ Ok 0 }
    ensures { Took table.entry.n (meet_of table.entry) (v + joints packet.now) (form_of form.old rows.old)
        (map (tie_fact v) (rule_of packet.now).ties) result (λ _. form_of form.new rows.new)
        × OnOk result (Named form.new.top (form_of form.new rows.new)) }
{
    let nodes = v as usize + packet[5] as usize;
    let count = packet[4] as usize;
    form.take_all(rows, table, nodes, count, |i| nth_tie(v, packet, i))
        .map_err(|_| Clash)
}

// The rule's facts taken, one after the other, in the same way.
fn with_rule_facts(
    form: &mut Solved,
    rows: &mut Rows,
    table: Table<'_>,
    v: u8,
    packet: &[u8],
) -> Result<(), Clash>
    requires ready { Ready table.n (v + joints packet.now) table.entries.now (form_of form.old rows.old) × Named form.old.top (form_of form.old rows.old) }
    requires packet_value { packet_reply rule_wanted table.n v packet.now ≡ Ok 0 }
    ensures { Took table.entry.n (meet_of table.entry) (v + joints packet.now) (form_of form.old rows.old)
        (map (rename (rule_node v)) (rule_of packet.now).facts) result (λ _. form_of form.new rows.new) }
{
    let nodes = v as usize + packet[5] as usize;
    let count = packets::fact_count(packet);
    form.take_all(rows, table, nodes, count, |i| nth_rule_fact(v, packet, i))
        .map_err(|_| Clash)
}

// The ties taken, then the facts.
fn with_rule(
    form: &mut Solved,
    rows: &mut Rows,
    table: Table<'_>,
    v: u8,
    packet: &[u8],
) -> Result<(), Clash>
    requires ready { Ready table.n (v + joints packet.now) table.entries.now (form_of form.old rows.old) × Named form.old.top (form_of form.old rows.old) }
    requires packet_value { packet_reply rule_wanted table.n v packet.now ≡ Ok 0 }
    ensures { Took table.entry.n (meet_of table.entry) (v + joints packet.now) (form_of form.old rows.old)
        (rule_node_facts v (rule_of packet.now)) result (λ _. form_of form.new rows.new) }
{
    with_ties(form, rows, table, v, packet)?;
    with_rule_facts(form, rows, table, v, packet)
}

// Whether the end, with its rows, says nothing new of the session's v joints.
fn same_rig(session: &Session<'_>, end: Solved, rows: &Rows, v: usize) -> bool
    requires { (v ≤ 64) }
    ensures { (result ≡ true → Settled v 0 (block_form session.now) (form_of end rows.now))
        × (result ≡ false → Settled v 0 (block_form session.now) (form_of end rows.now) → ⊥) }
{
    runs::same(&end.class[..v], &session.classes()[..v])
        && runs::same(&end.kind[..v], &session.kinds()[..v])
        && runs::same(&rows[..16 * v], &session.rows()[..16 * v])
}

// Whether each of the k rule joints is one with a rig joint: its class is numbered by one of the first v nodes.
fn all_inside(form: Solved, v: usize, k: usize) -> bool
    requires { v + k ≤ 96 }
    ensures { (result ≡ true → (i : ℕ) → i < k → get_or form.class (v + i) 0 < v)
        × (result ≡ false → ((i : ℕ) → i < k → get_or form.class (v + i) 0 < v) → ⊥) }
{
    form.class[v..v + k].iter().all(|c| usize::from(*c) < v)
}

// Whether nothing new is said of the rig, and each rule joint is one with a rig joint.
fn settled(session: &Session<'_>, end: Solved, rows: &Rows, v: usize, k: usize) -> bool
    requires { (v ≤ 64) × (v + k ≤ 96) }
    ensures { (result ≡ true → Settled v k (block_form session.now) (form_of end rows.now))
        × (result ≡ false → Settled v k (block_form session.now) (form_of end rows.now) → ⊥) }
{
    same_rig(session, end, rows, v) && all_inside(end, v, k)
}

// The verdict on a rule that no reply refuses.
fn verdict(block: &Block<'_>, packet: &[u8]) -> Verdict
    requires packet_value { ask_refusal block.now packet.now ≡ Ok 0 }
    requires reach_reply { ReachReply (rule_of packet.now) (Ok 0) }
    ensures { Judged (rig_of block.now) (taken block.now) (rule_of packet.now) result }
{
    let session = block.session();
    let v = session.joint_count();
    let joints = usize::from(v);
    let k = usize::from(packet[5]);
    let mut rows = [0u8; 1536];
    let mut form = unpacking::unpack(&mut rows, &session, joints, k);
    if with_rule(&mut form, &mut rows, block.kind_table(), v, packet).is_err() {
        return Verdict::RuledOut;
    }
    if settled(&session, form, &rows, joints, k) {
        return Verdict::Applies;
    }
    Verdict::Waits
}

// The reply to asking a rule: the third number is the verdict. Nothing is written.
pub fn ask(block: &[u8], packet: &[u8]) -> Reply
    ensures { Ask block.now packet.now result }
{
    let block = Block::of(block)?;
    screening::rule_reply(packet, block.kind_count(), block.joint_count())?;
    reach::reach_reply(packet)?;
    Ok(verdict(&block, packet).into())
}
