// Replies 5 to 9, to any bytes.
#![tactic(auto)]

ghost use Rattle.std.specs.Prelude.{◌≡◌, Bool, List, [], ℕ, get_or, take, drop, ◌+◌, ◌*◌, ◌^◌, ◌<◌, ◌≤◌, length};
ghost use Rattle.runs.specs.Runs.{within};
ghost use Rattle.packets.specs.Packet.{fact_at, fact_count};
ghost use Rattle.screening.specs.Screening.{length_fits, count_fits, facts_wanted, rule_wanted, tie_fits, fact_fits, first_unfit, first_bad_tie, first_bad_fact, packet_reply};
ghost use Rattle.screening.specs.Whole.{Whole};

use packets::Packet;
use replies::{Cause, Refusal, Reply};
use std::marker::Model;

mod words;

// From one number to another. (No RangeInclusive: it also holds whether it is used up, which `Wanted` would have to tell.)
#[derive(Clone, Copy)]
pub struct Range {
    pub from: usize,
    pub to: usize,
}

impl Range {
    fn has(self, x: usize) -> bool
        ensures { result ≡ within self.from self.to x }
    {
        runs::in_range(x, self.from, self.to)
    }
}

// What a call wants of a packet: its purpose, and how many ties and joints it may have.
#[derive(Clone, Copy)]
pub struct Wanted {
    pub purpose: usize,
    pub ties: Range,
    pub joints: Range,
}

fn length_fits(packet: &[u8]) -> bool
    ensures { result ≡ length_fits packet.now }
{
    6 <= packet.len() && packet.len() == Packet::of(packet).stated_length() + 2
}

fn count_fits(packet: &Packet<'_>) -> bool
    ensures { result ≡ count_fits packet.now }
{
    let count = packet.fact_count();
    packet.stated_length() == 4 + 2 * packet.tie_count() + 4 * count && count <= 1088
}

// A tie in range: a joint of the rule, and one of v rig joints.
fn tie_fits(packet: &Packet<'_>, at: usize, v: usize) -> bool
    requires { at + 2 ≤ length packet.now }
    ensures { result ≡ tie_fits v packet.now at }
{
    packets::byte_at(packet.bytes(), at) < packet.joint_count()
        && packets::byte_at(packet.bytes(), at + 1) < v
}

// A fact of a known tag, its numbers in range and its unused byte 0.
#[tactic(auto, unfolding(crate::specs::Screening::fact_fits))]
fn fact_fits(packet: &Packet<'_>, at: usize, n: usize) -> bool
    requires { at + 4 ≤ length packet.now }
    ensures { result ≡ fact_fits n packet.now at }
{
    let bytes = packet.bytes();
    let a = packets::byte_at(bytes, at + 1);
    let x = packets::byte_at(bytes, at + 2);
    let y = packets::byte_at(bytes, at + 3);
    let joints = packet.joint_count();
    match bytes[at] {
        packets::KIND => a < joints && x < n && y == 0,
        packets::SAME => a < joints && x < joints && y == 0,
        packets::LINK => a < joints && x < 16 && y < joints,
        _ => false,
    }
}

// The first of count parts that does not fit, by its first byte. They stand from a byte on, one behind the other. (By number,
// since the place is the reply.)
fn first_unfit<F: Fn(usize) -> bool>(from: usize, size: usize, count: usize, fits: F) -> Reply
    requires inside { (i : ℕ) → i < count → from + size * i < 2 ^ 32 }
    requires asked { (i : ℕ) → i < count → F.pre fits (from + size * i) }
    ensures { (right : ℕ → Bool) → ((at : ℕ) (r : Bool) → F.post fits at r → r ≡ right at) → result ≡ first_unfit right (λ i. from + size * i) 0 count }
{
    for i in 0..count {
        let at = from + size * i;
        if !fits(at) {
            return Err(Refusal(Cause::BadPart, at as u32));
        }
    }
    Ok(0)
}

// A packet that its ties and facts fill, lent to be read.
#[derive(Drop)]
struct Filled<'a> {
    packet: Packet<'a>,
}

impl<'a> Model for Filled<'a> {
    ghost Value = { List ℕ };

    ghost view = { λ f. f.packet };

    ghost invariant = { λ f. Whole f.packet };
}

impl<'a> Filled<'a> {
    // The facts, four bytes each. They end where the packet does.
    fn facts(&self) -> &'a [[u8; 4]]
        ensures count { length result.now ≡ fact_count self.now }
        ensures each { (i : ℕ) → i < fact_count self.now → get_or result.now i [] ≡ take 4 (drop (fact_at self.now i) self.now) }
    {
        let (facts, _) = self.packet.bytes()[self.packet.fact_at(0)..].as_chunks::<4>();
        facts
    }

    // The first tie that is none.
    fn first_bad_tie(&self, v: usize) -> Reply
        ensures { result ≡ first_bad_tie v self.now }
    {
        first_unfit(
            6,
            2,
            self.packet.tie_count(),
            |at| tie_fits(&self.packet, at, v),
        )
    }

    // The first fact that is none, looked for fact by fact.
    fn find_bad_fact(&self, n: usize) -> Reply
        ensures { result ≡ first_bad_fact n self.now }
    {
        first_unfit(
            self.packet.fact_at(0),
            4,
            self.packet.fact_count(),
            |at| fact_fits(&self.packet, at, n),
        )
    }

    // The same. Where all facts fit, a look at all of them at once tells.
    fn first_bad_fact(&self, n: usize) -> Reply
        ensures { result ≡ first_bad_fact n self.now }
    {
        if words::all_fit(self, n) {
            return Ok(0);
        }
        self.find_bad_fact(n)
    }
}

// Replies 5 to 9: the first thing that is wrong, in the order of their numbers.
fn packet_reply(packet: &[u8], w: Wanted, n: usize, v: usize) -> Reply
    ensures { result ≡ packet_reply w n v packet.now }
{
    if !length_fits(packet) {
        return Err(Refusal(Cause::BadLength, 0));
    }
    let packet = Packet::of(packet);
    if packet.version() != 1 {
        return Err(Refusal(Cause::BadVersion, 2));
    }
    if packet.purpose() != w.purpose {
        return Err(Refusal(Cause::BadHeader, 3));
    }
    if !w.ties.has(packet.tie_count()) {
        return Err(Refusal(Cause::BadHeader, 4));
    }
    if !w.joints.has(packet.joint_count()) {
        return Err(Refusal(Cause::BadHeader, 5));
    }
    if !count_fits(&packet) {
        return Err(Refusal(Cause::BadCount, 0));
    }
    let filled = Filled { packet };
    filled.first_bad_tie(v).and(filled.first_bad_fact(n))
}

// At take: a packet of facts on the session's v joints.
pub fn facts_reply(packet: &[u8], n: usize, v: usize) -> Reply
    ensures { result ≡ packet_reply (facts_wanted v) n v packet.now }
{
    let wanted = Wanted {
        purpose: 1,
        ties: Range { from: 0, to: 0 },
        joints: Range { from: v, to: v },
    };
    packet_reply(packet, wanted, n, v)
}

// At ask: a rule.
pub fn rule_reply(packet: &[u8], n: usize, v: usize) -> Reply
    ensures { result ≡ packet_reply rule_wanted n v packet.now }
{
    let wanted = Wanted {
        purpose: 2,
        ties: Range { from: 1, to: 8 },
        joints: Range { from: 1, to: 32 },
    };
    packet_reply(packet, wanted, n, v)
}
