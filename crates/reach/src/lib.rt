// Reply 10: which of a rule's joints are reached, and the smallest that is not. A set of joints is a number of 32 bits, and bit j is joint j's.
#![tactic(auto)]

ghost use Rattle.std.specs.Prelude.{◌≡◌, List, ℕ, ◌+◌, ◌<◌, ◌≤◌, eqb, replicate};
ghost use Rattle.packets.specs.Packet.{fact_count};
ghost use Rattle.packets.specs.Facts.{rule_of};
ghost use Rattle.reach.specs.Reached.{SmallestNot, ReachReply};
ghost use Rattle.reach.specs.Marking.{RulePacket, bit, Marked, WithMark, WithLead, Leads, Sound, TiesMarked, Closed};

use meaning::{Fact, RuleJoint};
use packets::Packet;
use replies::{Cause, Refusal, Reply};
use std::marker::Model;

// A set of joints.
#[derive(Clone, Copy, PartialEq, Eq)]
struct Marks(u32);

impl Marks {
    fn has(self, j: usize) -> bool
        requires { j < 32 }
        ensures { result ≡ eqb (bit self.0 j) 1 }
    {
        self.0 >> j & 1 == 1
    }

    // The joint j marked, too.
    fn with(self, j: usize) -> Marks
        requires { j < 32 }
        ensures { WithMark self.0 j result.0 }
    {
        Marks(self.0 | 1 << j)
    }

    // A joint that is marked.
    fn first(self) -> usize
        requires { 0 < self.0 }
        ensures { (result < 32) × Marked self.0 result }
    {
        u32::trailing_zeros(self.0) as usize
    }
}

// Row a of `to` is the set of the joints that a leads to; here c, too. (A row is the number itself, no Marks: what leads where is said of
// the numbers' bits, row by row, in specs/Marking.)
fn note(to: &mut [u32; 32], a: RuleJoint, c: RuleJoint)
    requires { (a.0 < 32) × (c.0 < 32) }
    ensures { WithLead a.0 c.0 to.old to.new }
{
    let row = &mut to[usize::from(a.0)];
    *row = Marks(*row).with(usize::from(c.0)).0;
}

// The packet of a rule that no reply from 5 to 9 refuses, lent to be read. A clause sees its bytes.
#[derive(Drop)]
struct Rule<'a> {
    packet: Packet<'a>,
}

impl<'a> Model for Rule<'a> {
    ghost Value = { List ℕ };

    ghost view = { λ r. r.packet };

    ghost invariant = { λ r. RulePacket r.packet };
}

impl<'a> Rule<'a> {
    // A tied joint is reached.
    fn mark_ties(&self) -> Marks
        ensures { Sound self.now result.0 × TiesMarked self.now result.0 }
    {
        let mut marks = Marks(0);
        for i in 0..self.packet.tie_count() {
            let j = packets::byte_at(self.packet.bytes(), 6 + 2 * i);
            marks = marks.with(j);
        }
        marks
    }

    // Where the i-th fact is "a.l is c", a leads to c. Nothing leads from c back to a.
    fn note_fact(&self, i: usize, to: &mut [u32; 32])
        requires i_bound { i < fact_count self.now }
        requires leads { Leads self.now i to.old }
        ensures { Leads self.now (i + 1) to.new }
    {
        let fact = packets::rule_fact(self.packet.bytes(), self.packet.fact_at(i));
        if let Fact::Link(a, _, c) = fact {
            note(to, a, c);
        }
    }

    // Every fact once, by its number, as `Leads` counts the facts that are noted.
    fn note_facts(&self, to: &mut [u32; 32])
        requires { to.old ≡ replicate 32 0 }
        ensures { Leads self.now (fact_count self.now) to.new }
    {
        for i in 0..self.packet.fact_count() {
            self.note_fact(i, to);
        }
    }

    // The reached joints: the tied ones, and those that a reached joint leads to. Each reached joint's row is followed once, whatever the
    // order of the facts.
    fn reached_joints(&self) -> Marks
        ensures { Closed self.now result.0 }
    {
        let mut to = [0u32; 32];
        self.note_facts(&mut to);
        let tied = self.mark_ties();
        let mut marks = tied;
        let mut followed = Marks(0);
        while followed != marks {
            let j = Marks(marks.0 ^ followed.0).first();
            followed = followed.with(j);
            marks = Marks(marks.0 | to[j]);
        }
        marks
    }
}

// The smallest of the joints that is not marked. (A joint is its number, and the number is the place told: `find` over the numbers is no plainer.)
fn first_unmarked(marks: Marks, joints: usize) -> Reply
    requires { joints ≤ 32 }
    ensures { SmallestNot (Marked marks.0) joints result }
{
    for j in 0..joints {
        if !marks.has(j) {
            return Err(Refusal(Cause::NotReached, j as u32));
        }
    }
    Ok(0)
}

// Reply 10, for a rule that no reply from 5 to 9 refuses.
pub fn reach_reply(packet: &[u8]) -> Reply
    requires { RulePacket packet.now }
    ensures { ReachReply (rule_of packet.now) result }
{
    let rule = Rule {
        packet: Packet::of(packet),
    };
    first_unmarked(rule.reached_joints(), rule.packet.joint_count())
}
