// Reading a rig typed as a term. The term reader and the argument reader call each other, at most 16 deep; the arguments of one term follow
// one another in a loop, so that the stack does not grow with the text. Whether 21, 22 or 12 fits is known at the end of the text alone, since
// 20 goes before them: so facts go into an array as long as a packet has room for them, and are counted alone from there on.
#![tactic(auto)]

ghost use Rattle.std.specs.Prelude.{◌≡◌, ◌≢◌, [], ◌∷◌, true, false, ◌+◌, ◌<◌, ◌≤◌, ◌^◌, ltb, length, MatchResult};
ghost use Rattle.std.specs.Bool.{MatchBool};
ghost use Rattle.replies.specs.declared.Cause.TheVariants.{OutOfRange as OutOfRange·cause};
ghost use Rattle.replies.specs.Replies.{unless, first_refusal};
ghost use Rattle.joints.specs.Layout.{kinds_of, joints_of};
ghost use Rattle.terms.specs.Machine.{here, is_digit};
ghost use Rattle.term_reading.specs.ReadTerm.{longest_text, ReadTerm};
ghost use Rattle.term_reading.specs.Reading.{Told, NumberAt, DigitAt, Sound, wrong_reply, JointStep, LinkStep, KindStep, HeadStep, TermStep, ArgumentsStep, WholeStep};
ghost use Rattle.term_reading.specs.Reading.{low, PacketAnswer, TextAnswer, PutFact, Said, lead_facts, Awaited, ArgumentsAwaited};

use blocks::Block;
use replies::{Cause, Refusal, Reply};

const MOST_FACTS: usize = 1088;

const FULL_PACKET: usize = 6 + 4 * MOST_FACTS;

const LONGEST_TEXT: usize = 1 << 24;

// A packet as it grows: its facts stand behind the first six bytes.
type Packet = [u8; FULL_PACKET];

// How far a text is read: the offset where it goes on, how many facts it has said, and where the first number out of range stands.
#[derive(Clone, Copy)]
pub struct Front {
    pub at: usize,
    pub facts: usize,
    pub wrong: Option<u32>,
}

impl Front {
    // The front behind one sign more.
    fn passed(self) -> Front
        requires { self.at < longest_text }
        ensures { result ≡ record self { at = self.at + 1 } }
    {
        Front {
            at: self.at + 1,
            ..self
        }
    }
}

// The offset where nothing can continue the text.
#[derive(Clone, Copy, Debug, PartialEq, Eq)]
pub struct Stuck(pub usize);

// A text, and what its numbers have to lie below: n kinds and v joints.
#[derive(Clone, Copy)]
struct Reader<'a> {
    text: &'a [u8],
    n: usize,
    v: usize,
}

// Whether a sign stands at an offset.
fn stands(text: &[u8], at: usize, sign: u8) -> bool
    ensures { MatchBool result (here text.now at ≡ sign) (here text.now at ≢ sign) }
{
    text.get(at).copied() == Some(sign)
}

// A sign that has to stand at an offset.
fn expect_sign(text: &[u8], at: usize, sign: u8) -> Result<(), Stuck>
    ensures { MatchResult result (λ _. here text.now at ≡ sign) (λ stuck. (here text.now at ≢ sign) × (stuck.0 ≡ at)) }
{
    if stands(text, at, sign) {
        Ok(())
    } else {
        Err(Stuck(at))
    }
}

// Whether a digit stands at an offset. What it counts is asked for apart: told together, as an `Option<usize>`, they make the reader slower by nearly half.
fn is_digit_at(text: &[u8], at: usize) -> bool
    ensures { is_digit (here text.now at) ≡ result }
{
    at < text.len() && text[at].is_ascii_digit()
}

// What the digit at an offset counts.
fn digit_at(text: &[u8], at: usize) -> usize
    requires { is_digit (here text.now at) ≡ true }
    ensures { DigitAt text.now at result }
{
    usize::from(text[at] - b'0')
}

// A number of one to three digits, with no leading zero, and the offset behind it.
fn read_number(text: &[u8], at: usize) -> Result<(usize, usize), Stuck>
    requires { (at ≤ length text.now) × (length text.now ≤ longest_text) }
    ensures { Told (NumberAt text.now at) result }
{
    if !is_digit_at(text, at) {
        return Err(Stuck(at));
    }
    let one = digit_at(text, at);
    if one == 0 {
        return Ok((0, at + 1));
    }
    if !is_digit_at(text, at + 1) {
        return Ok((one, at + 1));
    }
    let two = 10 * one + digit_at(text, at + 1);
    if !is_digit_at(text, at + 2) {
        return Ok((two, at + 2));
    }
    Ok((10 * two + digit_at(text, at + 2), at + 3))
}

// Where the first number out of range stands, when the next one stands at an offset and has to lie below a limit.
fn first_wrong(wrong: Option<u32>, x: usize, limit: usize, at: usize) -> Option<u32>
    requires { at < 2 ^ 32 }
    ensures { wrong_reply result ≡ first_refusal (wrong_reply wrong ∷ []) (unless (ltb x limit) OutOfRange·cause at) }
{
    if x < limit || wrong.is_some() {
        return wrong;
    }
    Some(at as u32)
}

// `@` and a joint number.
fn read_joint(text: &[u8], from: Front, v: usize) -> Result<(usize, Front), Stuck>
    requires { Sound text.now from }
    ensures { Told (JointStep text.now v from) result }
{
    let at = from.at;
    expect_sign(text, at, b'@')?;
    let (joint, end) = read_number(text, at + 1)?;
    Ok((
        joint,
        Front {
            at: end,
            wrong: first_wrong(from.wrong, joint, v, at + 1),
            ..from
        },
    ))
}

// A link number and `=>`.
fn read_link(text: &[u8], from: Front) -> Result<(usize, Front), Stuck>
    requires { Sound text.now from }
    ensures { Told (LinkStep text.now from) result }
{
    let at = from.at;
    let (link, end) = read_number(text, at)?;
    expect_sign(text, end, b'=')?;
    expect_sign(text, end + 1, b'>')?;
    Ok((
        link,
        Front {
            at: end + 2,
            wrong: first_wrong(from.wrong, link, 16, at),
            ..from
        },
    ))
}

// The four bytes of a fact as the i-th, where a packet has room for it; how many facts there are then. A number that is no byte is out of
// range, so that no packet goes out: its low byte stands for it, by `%`, since `as` takes only what fits, and `to_le_bytes()[0]` is no plainer.
fn put_fact(packet: &mut Packet, i: usize, tag: u8, a: usize, x: usize, y: usize) -> usize
    requires { i < longest_text }
    ensures { PutFact (tag ∷ low a ∷ low x ∷ low y ∷ []) i packet.old result packet.new }
{
    if MOST_FACTS <= i {
        return i + 1;
    }
    writing::put(
        packet,
        6 + 4 * i,
        &[tag, (a % 256) as u8, (x % 256) as u8, (y % 256) as u8],
    );
    i + 1
}

// The fact that leads to a term from a joint by a link, as the i-th; the outermost term has none.
fn put_lead(packet: &mut Packet, i: usize, lead: Option<(usize, usize)>, joint: usize) -> usize
    requires { i < longest_text }
    ensures { Said (lead_facts lead joint) i packet.old result packet.new }
{
    match lead {
        None => i,
        Some((a, l)) => put_fact(packet, i, 3, a, l, joint),
    }
}

impl<'a> Reader<'a> {
    // `:` and a kind number, where they stand; the kind's fact.
    fn read_kind(&self, from: Front, joint: usize, packet: &mut Packet) -> Result<Front, Stuck>
        requires { Sound self.now.text.now from }
        ensures { Told (λ x. KindStep self.now.text.now self.now.n joint from packet.old x packet.new) result }
    {
        let at = from.at;
        if !stands(self.text, at, b':') {
            return Ok(from);
        }
        let (kind, end) = read_number(self.text, at + 1)?;
        let facts = put_fact(packet, from.facts, 1, joint, kind, 0);
        let wrong = first_wrong(from.wrong, kind, self.n, at + 1);
        Ok(Front {
            at: end,
            facts,
            wrong,
        })
    }

    // A term up to its kind: the fact that leads to it, then its kind's.
    fn read_head(
        &self,
        from: Front,
        lead: Option<(usize, usize)>,
        packet: &mut Packet,
    ) -> Result<(usize, Front), Stuck>
        requires { Sound self.now.text.now from }
        ensures { Told (λ x. HeadStep self.now.text.now self.now.n self.now.v lead from packet.old x packet.new) result }
    {
        let (joint, behind) = read_joint(self.text, from, self.v)?;
        let facts = put_lead(packet, behind.facts, lead, joint);
        let led = Front { facts, ..behind };
        let end = self.read_kind(led, joint, packet)?;
        Ok((joint, end))
    }

    // A term that so many terms are around.
    #[cycle(terms)]
    fn read_term(
        &self,
        from: Front,
        lead: Option<(usize, usize)>,
        around: usize,
        packet: &mut Packet,
    ) -> Result<Front, Stuck>
        requires { Sound self.now.text.now from × Awaited self.now.text.now around from.at }
        ensures { Told (λ x. TermStep self.now.text.now self.now.n self.now.v around lead from packet.old x packet.new) result }
    {
        let (joint, head) = self.read_head(from, lead, packet)?;
        if !stands(self.text, head.at, b'(') {
            return Ok(head);
        }
        if around == 15 {
            return Err(Stuck(head.at));
        }
        self.read_arguments(head.passed(), joint, around, packet)
    }

    // The arguments of a joint, and the bracket that closes them.
    #[cycle(terms)]
    fn read_arguments(
        &self,
        from: Front,
        joint: usize,
        around: usize,
        packet: &mut Packet,
    ) -> Result<Front, Stuck>
        requires { Sound self.now.text.now from × ArgumentsAwaited self.now.text.now around from.at }
        ensures { Told (λ x. ArgumentsStep self.now.text.now self.now.n self.now.v around joint from packet.old x packet.new) result }
    {
        let mut front = from;
        loop {
            let (link, inner) = read_link(self.text, front)?;
            let end = self.read_term(inner, Some((joint, link)), around + 1, packet)?;
            if stands(self.text, end.at, b')') {
                return Ok(end.passed());
            }
            expect_sign(self.text, end.at, b',')?;
            front = end.passed();
        }
    }
}

// The whole text, for n kinds and v joints: one term, and nothing behind it.
fn read_whole(text: &[u8], n: usize, v: usize, packet: &mut Packet) -> Result<Front, Stuck>
    requires { length text.now ≤ longest_text }
    ensures { Told (λ x. WholeStep text.now n v packet.old x packet.new) result }
{
    let from = Front {
        at: 0,
        facts: 0,
        wrong: None,
    };
    let end = Reader { text, n, v }.read_term(from, None, 0, packet)?;
    if end.at < text.len() {
        return Err(Stuck(end.at));
    }
    Ok(end)
}

// The packet of a term that was read: replies 21, 22 and 12.
fn put_packet(end: Front, v: u8, packet: &mut Packet, out: &mut [u8]) -> Reply
    ensures { PacketAnswer end v packet.old out.old result out.new }
{
    if let Some(place) = end.wrong {
        return Err(Refusal(Cause::OutOfRange, place));
    }
    let facts = end.facts;
    if MOST_FACTS < facts {
        return Err(Refusal(Cause::TooManyFacts, 0));
    }
    writing::put_header(packet, 4 + 4 * facts, v);
    outputs::put_out(out, &packet[..6 + 4 * facts])
}

// What a text becomes for a block.
fn read_packet(block: &Block<'_>, text: &[u8], out: &mut [u8]) -> Reply
    requires { length text.now ≤ longest_text }
    ensures { TextAnswer text.now (kinds_of block.now) (joints_of block.now) out.old result out.new }
{
    let v = block.joint_count();
    let mut packet = [0u8; FULL_PACKET];
    let whole = read_whole(text, block.kind_count(), v, &mut packet);
    let end = whole.map_err(|Stuck(p)| Refusal(Cause::NoTerm, p as u32))?;
    put_packet(end, v as u8, &mut packet, out)
}

// Reads a rig typed as a term into a facts packet, where the output has room for it. A refusal writes nothing.
pub fn read(block: &[u8], text: &[u8], out: &mut [u8]) -> Reply
    ensures { ReadTerm block.now text.now out.old result out.new }
{
    if LONGEST_TEXT < text.len() {
        return Err(Refusal(Cause::BadSize, 0));
    }
    let block = Block::of(block)?;
    read_packet(&block, text, out)
}
