// Packets: what their bytes say, part by part.
#![tactic(auto)]

ghost use Rattle.std.specs.Prelude.{◌≡◌, List, ℕ, ◌+◌, ◌*◌, ◌^◌, ◌<◌, ◌≤◌, length};
ghost use Rattle.packets.specs.Packet.{byte, L, ties, joints, fact_at, fact_count};
ghost use Rattle.meaning.specs.Decoding.{decoded};
ghost use Rattle.packets.specs.Facts.{fact_of, tie_of};
ghost use Rattle.meaning.specs.Form.{rig_joint};
ghost use Rattle.meaning.specs.Rule.{rule_joint};

use meaning::{Fact, RigFact, RigJoint, RuleFact, RuleJoint, Tie};
use std::marker::Model;

// A fact's first byte, its tag. Here any other number is read as a link's, and screening refuses it.
pub const KIND: u8 = 1;

pub const SAME: u8 = 2;

pub const LINK: u8 = 3;

// A packet that has the six bytes before its ties and facts, lent to be read. A clause sees its bytes.
#[derive(Drop)]
pub struct Packet<'a> {
    bytes: &'a [u8],
}

impl<'a> Model for Packet<'a> {
    ghost Value = { List ℕ };

    ghost view = { λ p. p.bytes.now };

    ghost invariant = { λ p. 6 ≤ length p.bytes.now };
}

impl<'a> Packet<'a> {
    pub fn of(bytes: &'a [u8]) -> Self
        requires { 6 ≤ length bytes.now }
        ensures { result ≡ bytes.now }
    {
        Packet { bytes }
    }

    pub fn bytes(&self) -> &'a [u8]
        ensures { result.now ≡ self.now }
    {
        self.bytes
    }

    // L, the number of bytes after the first two.
    pub fn stated_length(&self) -> usize
        ensures { (result ≡ L self.now) × (result < 65536) }
    {
        usize::from(u16::from_be_bytes([self.bytes[0], self.bytes[1]]))
    }

    pub fn version(&self) -> usize
        ensures { result ≡ byte self.now 2 }
    {
        byte_at(self.bytes, 2)
    }

    pub fn purpose(&self) -> usize
        ensures { result ≡ byte self.now 3 }
    {
        byte_at(self.bytes, 3)
    }

    pub fn tie_count(&self) -> usize
        ensures { (result ≡ ties self.now) × (result < 256) }
    {
        byte_at(self.bytes, 4)
    }

    pub fn joint_count(&self) -> usize
        ensures { (result ≡ joints self.now) × (result < 256) }
    {
        byte_at(self.bytes, 5)
    }

    // How many facts there are. An L too short for its ties leaves none, and then does not fit.
    pub fn fact_count(&self) -> usize
        ensures { result ≡ fact_count self.now }
    {
        self.stated_length()
            .saturating_sub(4 + 2 * self.tie_count())
            / 4
    }

    // Where the i-th fact stands. The bound on i holds for any packet: L is below 65,536.
    pub fn fact_at(&self, i: usize) -> usize
        requires { i < 65536 }
        ensures { (result ≡ fact_at self.now i) × (result ≤ 516 + 4 * i) }
    {
        6 + 2 * self.tie_count() + 4 * i
    }
}

// The byte at a place, as a number.
pub fn byte_at(packet: &[u8], at: usize) -> usize
    requires { at < length packet.now }
    ensures { (result ≡ byte packet.now at) × (result < 256) }
{
    usize::from(packet[at])
}

// The same of bytes that are lent as they are: a caller's clause tells that there are six.
pub fn fact_count(packet: &[u8]) -> usize
    requires { 6 ≤ length packet.now }
    ensures { result ≡ fact_count packet.now }
{
    Packet::of(packet).fact_count()
}

pub fn fact_at(packet: &[u8], i: usize) -> usize
    requires { (6 ≤ length packet.now) × (i < 65536) }
    ensures { (result ≡ fact_at packet.now i) × (result < 2 ^ 32) }
{
    Packet::of(packet).fact_at(i)
}

// The fact at a byte, on the joints' numbers. A tag that is neither of the first two is read as a link's: replies 5 to 9
// have told others before.
#[tactic(auto, unfolding(crate::specs::Facts::fact_of))]
fn number_fact(packet: &[u8], at: usize) -> Fact<u8>
    requires { at + 4 ≤ length packet.now }
    ensures { decoded result ≡ fact_of (λ j. j) packet.now at }
{
    let a = packet[at + 1];
    let x = packet[at + 2];
    match packet[at] {
        KIND => Fact::Kind(a, x),
        SAME => Fact::Same(a, x),
        _ => Fact::Link(a, x, packet[at + 3]),
    }
}

// The fact at a byte, on rig joints.
#[tactic(auto, using(crate::proofs::Facts::read_named))]
pub fn rig_fact(packet: &[u8], at: usize) -> RigFact
    requires { at + 4 ≤ length packet.now }
    ensures { decoded result ≡ fact_of rig_joint packet.now at }
{
    number_fact(packet, at).map(RigJoint)
}

// The fact at a byte, on a rule's joints.
#[tactic(auto, using(crate::proofs::Facts::read_named))]
pub fn rule_fact(packet: &[u8], at: usize) -> RuleFact
    requires { at + 4 ≤ length packet.now }
    ensures { decoded result ≡ fact_of rule_joint packet.now at }
{
    number_fact(packet, at).map(RuleJoint)
}

// The tie at a byte.
pub fn tie(packet: &[u8], at: usize) -> Tie
    requires { at + 2 ≤ length packet.now }
    ensures { result ≡ tie_of packet.now at }
{
    Tie {
        rule: RuleJoint(packet[at]),
        rig: RigJoint(packet[at + 1]),
    }
}
