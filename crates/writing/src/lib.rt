// Writing a block's solved form. An output that has room for any form gets it straight. For a shorter one the form is made in an array
// first, so that its length is known before a byte of the output is written.
#![tactic(auto)]

ghost use Rattle.std.specs.Prelude.{◌≡◌, true, [], ◌∷◌, ◌+◌, ◌*◌, ◌/◌, ◌%◌, ◌<◌, ◌≤◌, length, get_or, drop};
ghost use Rattle.meaning.specs.Form.{unknown, links_from, facts_at, facts_from};
ghost use Rattle.joints.specs.Layout.{block_form};
ghost use Rattle.outputs.specs.Output.{output_reply, output_after};
ghost use Rattle.writing.specs.Write.{solved_form, write_reply, written_output};
ghost use Rattle.writing.specs.Putting.{most_bytes, Room, Put, form_bytes, kind_bytes, link_bytes};

use blocks::Block;
use joints::Session;
use replies::Reply;

const LONGEST_FORM: usize = 4358;

// The bytes, put at a place; the place behind them.
// All that puts takes the place and gives the one behind. A struct of the two would hold `to` by `&mut`, and each contract and invariant would
// have to say as well that it holds the same reference still.
pub fn put(to: &mut [u8], at: usize, bytes: &[u8]) -> usize
    requires { Room bytes.now at to.old }
    ensures { Put bytes.now at to.old to.new result }
{
    let end = at + bytes.len();
    to[at..end].copy_from_slice(bytes);
    end
}

// The fact "joint has kind s", unless s is 1.
fn put_kind(to: &mut [u8], at: usize, joint: u8, s: u8) -> usize
    requires { Room (kind_bytes joint s) at to.old }
    ensures { Put (kind_bytes joint s) at to.old to.new result }
{
    if s == 1 {
        return at;
    }
    put(to, at, &[1, joint, s, 0])
}

// The fact "joint.l is c", unless the link is not known.
fn put_link(to: &mut [u8], at: usize, joint: u8, l: u8, c: u8) -> usize
    requires { Room (link_bytes joint l c) at to.old }
    ensures { Put (link_bytes joint l c) at to.old to.new result }
{
    if c == 255 {
        return at;
    }
    put(to, at, &[3, joint, l, c])
}

// Whether four bytes are 255 each, told by one look. They are copied first: then they are one load, even where each is read again behind it.
fn all_unknown(part: &[u8]) -> bool
    requires { length part.now ≡ 4 }
    ensures { result ≡ true → (get_or part.now 0 0 ≡ unknown) × (get_or part.now 1 0 ≡ unknown) × (get_or part.now 2 0 ≡ unknown)
        × (get_or part.now 3 0 ≡ unknown) }
{
    let mut four = [0; 4];
    four.copy_from_slice(part);
    u32::from_le_bytes(four) == u32::MAX
}

// Whether none of the four links of joint j from l on is known, told by one look at the four. A "no" says nothing.
pub fn none_of_four(session: &Session<'_>, j: usize, l: usize) -> bool
    requires { (j < 64) × (l ≤ 12) }
    ensures { result ≡ true → links_from (block_form session.now) j l 4 ≡ [] }
{
    let at = j * 16 + l;
    all_unknown(&session.rows()[at..at + 4])
}

// The known ones of the four links of joint j from l on. Here and below a link and a joint are the numbers that are put, and the place behind what was
// put goes from turn to turn: a `fold` would have to hold `to` in its closure.
fn put_four(to: &mut [u8], at: usize, session: &Session<'_>, j: usize, l: usize) -> usize
    requires { (j < 64) × (l ≤ 12) × Room (form_bytes (links_from (block_form session.now) j l 4)) at to.old }
    ensures { Put (form_bytes (links_from (block_form session.now) j l 4)) at to.old to.new result }
{
    let mut end = at;
    for k in l..l + 4 {
        let c = session.link_at(j, k);
        end = put_link(to, end, j as u8, k as u8, c);
    }
    end
}

// The same, which passes over four that are not known: in most rows most are not.
fn put_some(to: &mut [u8], at: usize, session: &Session<'_>, j: usize, l: usize) -> usize
    requires { (j < 64) × (l ≤ 12) × Room (form_bytes (links_from (block_form session.now) j l 4)) at to.old }
    ensures { Put (form_bytes (links_from (block_form session.now) j l 4)) at to.old to.new result }
{
    if none_of_four(session, j, l) {
        return at;
    }
    put_four(to, at, session, j, l)
}

// The known links of joint j, in rising order.
fn put_links(to: &mut [u8], at: usize, session: &Session<'_>, j: usize) -> usize
    requires { (j < 64) × Room (form_bytes (links_from (block_form session.now) j 0 16)) at to.old }
    ensures { Put (form_bytes (links_from (block_form session.now) j 0 16)) at to.old to.new result }
{
    let mut end = at;
    for q in 0..4 {
        end = put_some(to, end, session, j, 4 * q);
    }
    end
}

// The facts of joint j: that it is one with its class's smallest joint, or, where it is that itself, its kind and its links.
fn put_joint(to: &mut [u8], at: usize, session: &Session<'_>, j: usize) -> usize
    requires { (j < 64) × Room (form_bytes (facts_at (block_form session.now) j)) at to.old }
    ensures { Put (form_bytes (facts_at (block_form session.now) j)) at to.old to.new result }
{
    let class = session.class_at(j);
    if class != j as u8 {
        return put(to, at, &[2, j as u8, class, 0]);
    }
    let kind = session.kind_at(j);
    let behind = put_kind(to, at, j as u8, kind);
    put_links(to, behind, session, j)
}

// The facts of each of v joints, in rising order.
fn put_joints(to: &mut [u8], at: usize, session: &Session<'_>, v: usize) -> usize
    requires { (v ≤ 64) × Room (form_bytes (facts_from (block_form session.now) 0 v)) at to.old }
    ensures { Put (form_bytes (facts_from (block_form session.now) 0 v)) at to.old to.new result }
{
    let mut end = at;
    for j in 0..v {
        end = put_joint(to, end, session, j);
    }
    end
}

// The first six bytes of a facts packet for v joints whose L is given.
pub fn put_header(to: &mut [u8], l: usize, v: u8)
    requires { (6 ≤ length to.old) × (l < 65536) }
    ensures { to.new ≡ l / 256 ∷ l % 256 ∷ 1 ∷ 1 ∷ 0 ∷ v ∷ drop 6 to.old }
{
    let [high, low] = (l as u16).to_be_bytes();
    put(to, 0, &[high, low, 1, 1, 0, v]);
}

// The solved form, put at the front; its length. The facts come first: they decide L.
fn put_form(to: &mut [u8], block: &Block<'_>) -> usize
    requires { most_bytes ≤ length to.old }
    ensures put { Put (solved_form block.now) 0 to.old to.new result }
    ensures short { result ≤ most_bytes }
{
    let v = block.joint_count();
    let end = put_joints(to, 6, &block.session(), v);
    put_header(to, end - 2, v as u8);
    end
}

// The solved form into an output that has room for any.
fn put_straight(block: &Block<'_>, out: &mut [u8]) -> Reply
    requires { most_bytes ≤ length out.old }
    ensures { (result ≡ output_reply (solved_form block.now) out.old)
        × (out.new ≡ output_after (solved_form block.now) out.old) }
{
    let size = put_form(out, block);
    Ok(size as u32)
}

// The solved form into an output that may be too short for it.
fn put_measured(block: &Block<'_>, out: &mut [u8]) -> Reply
    ensures { (result ≡ output_reply (solved_form block.now) out.old)
        × (out.new ≡ output_after (solved_form block.now) out.old) }
{
    let mut form = [0u8; LONGEST_FORM];
    let size = put_form(&mut form, block);
    outputs::put_out(out, &form[..size])
}

// The solved form as a facts packet, where the output has room for it. A refusal writes nothing.
#[tactic(auto, using(crate::proofs::Writing::output_decides, crate::proofs::Writing::written))]
pub fn write(block: &[u8], out: &mut [u8]) -> Reply
    ensures { (result ≡ write_reply block.now out.old)
        × (out.new ≡ written_output block.now out.old) }
{
    let block = Block::of(block)?;
    if LONGEST_FORM <= out.len() {
        return put_straight(&block, out);
    }
    put_measured(&block, out)
}
