// Writing a rig as a term. The joints are visited from the chosen one on, links rising, and each is marked when it is met: where one is met
// again, or too deep, or one that says something is not met at all, the rig is no tree from there; nor is it where joints are joined. The
// text is made in an array first, so that all this is known before a byte of the output is written.
#![tactic(auto)]

ghost use Rattle.std.specs.Prelude.{◌≡◌, true, [], ◌∷◌, ℕ, ◌+◌, ◌*◌, ◌<◌, ◌≤◌, length, MatchBool, Ok, Err};
ghost use Rattle.replies.specs.declared.Cause.TheVariants.{NoTree};
ghost use Rattle.replies.specs.Replies.{refusal};
ghost use Rattle.decimals.specs.Decimal.{decimal};
ghost use Rattle.meaning.specs.Form.{unknown, links_from};
ghost use Rattle.joints.specs.Layout.{joints_of, block_form};
ghost use Rattle.blocks.specs.WellFormed.{block_reply};
ghost use Rattle.writing.specs.Putting.{Room, Put};
ghost use Rattle.term_writing.specs.WriteTerm.{WriteTerm};
ghost use Rattle.term_writing.specs.Visiting.{text_room, link_room, kind_text, head_text, link_text, sign_before, closing_text};
ghost use Rattle.term_writing.specs.Visiting.{Unmarked, unmarked, TermFound, ArgumentsFound, ArgumentFound, Ready, Accounted, Missed, TreeFound};

use blocks::Block;
use joints::Session;
use replies::{Cause, Refusal, Reply};

// Room for any text: for each of 64 joints `dd=>` with a sign before it, `@dd:dd`, and a bracket that closes.
const TEXT_ROOM: usize = 768;

// How many levels may stand below the root's.
const BELOW_ROOT: usize = 15;

// Why a visit fails: what is known is no tree from the chosen joint.
#[derive(Clone, Copy, Debug, PartialEq, Eq)]
struct NoTree;

impl From<NoTree> for Refusal {
    ghost from_gives = { λ _ r. Err r ≡ refusal NoTree 0 };

    fn from(_: NoTree) -> Refusal {
        Refusal(Cause::NoTree, 0)
    }
}

// A number of one or two digits.
fn put_number(to: &mut [u8], at: usize, x: u8) -> usize
    requires { (x < 100) × Room (decimal x) at to.old }
    ensures { Put (decimal x) at to.old to.new result }
{
    let last = decimals::digit(u32::from(x % 10));
    if x < 10 {
        return writing::put(to, at, &[last]);
    }
    writing::put(to, at, &[decimals::digit(u32::from(x / 10)), last])
}

// `:` and a kind, unless it is 1.
fn put_kind(to: &mut [u8], at: usize, s: u8) -> usize
    requires { (s < 100) × Room (kind_text s) at to.old }
    ensures { Put (kind_text s) at to.old to.new result }
{
    if s == 1 {
        return at;
    }
    let next = writing::put(to, at, b":");
    put_number(to, next, s)
}

// `@`, a joint and its kind.
fn put_head(to: &mut [u8], at: usize, j: u8, s: u8) -> usize
    requires { (j < 100) × (s < 100) × Room (head_text j s) at to.old }
    ensures { Put (head_text j s) at to.old to.new result }
{
    let next = writing::put(to, at, b"@");
    let next = put_number(to, next, j);
    put_kind(to, next, s)
}

// A sign, a link and `=>`.
fn put_link(to: &mut [u8], at: usize, sign: u8, l: u8) -> usize
    requires { (l < 100) × Room (link_text sign l) at to.old }
    ensures { Put (link_text sign l) at to.old to.new result }
{
    let next = writing::put(to, at, &[sign]);
    let next = put_number(to, next, l);
    writing::put(to, next, b"=>")
}

// The sign before an argument, where the arguments of its joint begin at `from`.
fn sign_before(from: usize, at: usize) -> u8
    ensures { result ≡ sign_before from at }
{
    if at == from { b'(' } else { b',' }
}

// The bracket behind the arguments that begin at `from`, if there are any.
fn put_closing(to: &mut [u8], from: usize, at: usize) -> usize
    requires { Room (closing_text from at) at to.old }
    ensures { Put (closing_text from at) at to.old to.new result }
{
    if at == from {
        return at;
    }
    writing::put(to, at, b")")
}

// The term of a joint that is not marked yet, with the terms below it; the place behind its text.
#[cycle(visit_argument_visit_arguments_visit_term)]
fn visit_term(
    session: &Session<'_>,
    j: u8,
    below: usize,
    to: &mut [u8],
    at: usize,
    seen: &mut [bool],
) -> Result<usize, NoTree>
    requires { (Ready session.now to.old seen.old) × ((j < joints_of session.now) × Unmarked seen.old j × (at + 12 * unmarked seen.old ≤ text_room + link_room)) }
    ensures { TermFound (block_form session.now) j below at
        to.old to.new seen.old seen.new result }
{
    seen[j as usize] = true;
    let kind = session.kind_at(j as usize);
    let from = put_head(to, at, j, kind);
    let end = visit_arguments(session, j, below, to, from, seen)?;
    Ok(put_closing(to, from, end))
}

// The arguments of joint j, in the order of their links, which rise. Four links that are not known are passed over at once: in most rows
// most are not. (A link is its number, which is written; a visit may end the loop, and hands on the place.)
#[cycle(visit_argument_visit_arguments_visit_term)]
fn visit_arguments(
    session: &Session<'_>,
    j: u8,
    below: usize,
    to: &mut [u8],
    from: usize,
    seen: &mut [bool],
) -> Result<usize, NoTree>
    requires { (Ready session.now to.old seen.old) × ((j < joints_of session.now) × (from + 12 * unmarked seen.old ≤ text_room)) }
    ensures { ArgumentsFound (block_form session.now) j below from
        to.old to.new seen.old seen.new result }
{
    let mut at = from;
    for q in 0..4 {
        if writing::none_of_four(session, j as usize, 4 * q) {
            continue;
        }
        for l in 4 * q..4 * q + 4 {
            let c = session.link_at(j as usize, l);
            at = visit_argument(session, l as u8, c, below, to, from, at, seen)?;
        }
    }
    Ok(at)
}

// The argument for a link that leads to c, if it is known.
#[cycle(visit_argument_visit_arguments_visit_term)]
fn visit_argument(
    session: &Session<'_>,
    l: u8,
    c: u8,
    below: usize,
    to: &mut [u8],
    from: usize,
    at: usize,
    seen: &mut [bool],
) -> Result<usize, NoTree>
    requires { (Ready session.now to.old seen.old) × ((l < 16) × ((c ≡ unknown → ⊥) → c < joints_of session.now) × (at + 12 * unmarked seen.old ≤ text_room)) }
    ensures { ArgumentFound (block_form session.now) l c below from at
        to.old to.new seen.old seen.new result }
{
    if c == 255 {
        return Ok(at);
    }
    if below == 0 || seen[c as usize] {
        return Err(NoTree);
    }
    let next = put_link(to, at, sign_before(from, at), l);
    visit_term(session, c, below - 1, to, next, seen)
}

// Whether no two joints are joined.
fn all_apart(session: &Session<'_>, v: usize) -> bool
    requires { v ≤ 64 }
    ensures { MatchBool result ((j : ℕ) → j < v → (block_form session.now).class j ≡ j)
        ((j : ℕ) × ((j < v) × ((block_form session.now).class j ≡ j → ⊥))) }
{
    (0..v).all(|j| session.class_at(j) as usize == j)
}

// Whether no link of joint j is known.
fn no_links(session: &Session<'_>, j: usize) -> bool
    requires { j < 64 }
    ensures { MatchBool result ((l : ℕ) → l < 16 → (block_form session.now).link j l ≡ unknown)
        ((l : ℕ) × ((l < 16) × ((block_form session.now).link j l ≡ unknown → ⊥))) }
{
    (0..16).all(|l| session.link_at(j, l) == 255)
}

// Whether joint j is marked, or says nothing: its kind is 1, and none of its links is known.
fn accounted(session: &Session<'_>, seen: &[bool], j: usize) -> bool
    requires { (length seen.now ≡ 64) × (j < 64) }
    ensures { MatchBool result (Accounted (block_form session.now) seen.now j) (Missed (block_form session.now) seen.now j) }
{
    seen[j] || (session.kind_at(j) == 1 && no_links(session, j))
}

// Whether that is so for each of v joints.
fn all_accounted(session: &Session<'_>, seen: &[bool], v: usize) -> bool
    requires { (length seen.now ≡ 64) × (v ≤ 64) }
    ensures { MatchBool result ((j : ℕ) → j < v → Accounted (block_form session.now) seen.now j)
        ((j : ℕ) × ((j < v) × Missed (block_form session.now) seen.now j)) }
{
    (0..v).all(|j| accounted(session, seen, j))
}

// The text of the rig from a joint of a well-formed block, put into an array with room for any; its length.
fn put_tree(session: &Session<'_>, root: u8, text: &mut [u8]) -> Result<usize, NoTree>
    requires { (block_reply session.now ≡ Ok 0) × (root < joints_of session.now) × (length text.old ≡ text_room) }
    ensures { TreeFound session.now root text.new result }
{
    let v = usize::from(session.joint_count());
    if !all_apart(session, v) {
        return Err(NoTree);
    }
    let mut seen = [false; 64];
    let end = visit_term(session, root, BELOW_ROOT, text, 0, &mut seen)?;
    if !all_accounted(session, &seen, v) {
        return Err(NoTree);
    }
    Ok(end)
}

// Writes the rig as a term from the joint `root`, where it is a tree from there. A refusal writes nothing.
pub fn write(block: &[u8], root: u64, out: &mut [u8]) -> Reply
    ensures { WriteTerm block.now root out.old result out.new }
{
    let session = Block::of(block)?.session();
    if root >= u64::from(session.joint_count()) {
        return Err(Refusal(Cause::OutOfRange, 0));
    }
    let mut text = [0u8; TEXT_ROOM];
    let end = put_tree(&session, root as u8, &mut text)?;
    outputs::put_out(out, &text[..end])
}
