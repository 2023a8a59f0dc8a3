// The session's own bytes, the first of a block: the numbers of kinds and of joints, and each joint's class, kind and links. The one place
// that knows where each stands; nothing here looks behind them.
#![tactic(auto)]

ghost use Rattle.std.specs.Prelude.{◌≡◌, ◌++◌, ◌-◌, ◌<◌, ◌≤◌, List, ℕ, length, replicate};
ghost use Rattle.joints.specs.Layout.{session_size, kinds_of, joints_of, classes_of, joint_kinds_of, rows_of, block_form};
ghost use Rattle.joints.specs.Fresh.{own_classes, any_kinds, no_links, fresh_session};
ghost use Rattle.joints.specs.Storing.{with_form};

use std::marker::Model;

// Where the class numbers, the kinds and the rows begin.
const CLASSES: usize = 2;

const KINDS: usize = 66;

const ROWS: usize = 130;

// How many bytes are the session's own.
pub const SESSION: usize = 1154;

// The session's own bytes, lent to be read. A clause sees the bytes, and behind the first 1,154 of them whatever was lent with them.
#[derive(Drop)]
pub struct Session<'a> {
    bytes: &'a [u8],
}

impl<'a> Model for Session<'a> {
    ghost Value = { List ℕ };

    ghost view = { λ s. s.bytes.now };

    ghost invariant = { λ s. session_size ≤ length s.bytes.now };
}

impl<'a> Session<'a> {
    // Those that the bytes begin with.
    pub fn of(bytes: &'a [u8]) -> Self
        requires { session_size ≤ length bytes.now }
        ensures { result ≡ bytes.now }
    {
        Session { bytes }
    }

    // n, the number of kinds.
    pub fn kind_count(&self) -> u8
        ensures { result ≡ kinds_of self.now }
    {
        self.bytes[0]
    }

    // V, the number of joints.
    pub fn joint_count(&self) -> u8
        ensures { result ≡ joints_of self.now }
    {
        self.bytes[1]
    }

    // The class number of each joint.
    pub fn classes(&self) -> &'a [u8]
        ensures size { length result.now ≡ 64 }
        ensures bytes { result.now ≡ classes_of self.now }
    {
        &self.bytes[CLASSES..KINDS]
    }

    // The kind of each joint.
    pub fn kinds(&self) -> &'a [u8]
        ensures size { length result.now ≡ 64 }
        ensures bytes { result.now ≡ joint_kinds_of self.now }
    {
        &self.bytes[KINDS..ROWS]
    }

    // The row of 16 links of each joint, one behind the other.
    pub fn rows(&self) -> &'a [u8]
        ensures size { length result.now ≡ 1024 }
        ensures bytes { result.now ≡ rows_of self.now }
    {
        &self.bytes[ROWS..SESSION]
    }

    // The class number of joint j.
    pub fn class_at(&self, j: usize) -> u8
        requires { j < 64 }
        ensures { result ≡ (block_form self.now).class j }
    {
        self.classes()[j]
    }

    // The kind of joint j.
    pub fn kind_at(&self, j: usize) -> u8
        requires { j < 64 }
        ensures { result ≡ (block_form self.now).kind j }
    {
        self.kinds()[j]
    }

    // Link l of joint j: 255 and no None where it is not known, for it is the byte of the block's layout, and is looked at four at once.
    pub fn link_at(&self, j: usize, l: usize) -> u8
        requires { (j < 64) × (l < 16) }
        ensures { result ≡ (block_form self.now).link j l }
    {
        self.rows()[j * 16 + l]
    }
}

// x in the first `count` places, 0 in the others.
fn fill_front(part: &mut [u8], count: usize, x: u8)
    requires { count ≤ length part.old }
    ensures { part.new ≡ replicate count x ++ replicate (length part.old - count) 0 }
{
    runs::repeat(&mut part[..count], x);
    runs::repeat(&mut part[count..], 0);
}

// Each joint is a class of its own.
fn write_classes(part: &mut [u8], v: usize)
    requires { length part.old ≡ 64 }
    ensures { part.new ≡ own_classes v }
{
    for (j, class) in part.iter_mut().enumerate() {
        *class = if j < v { j as u8 } else { 0 };
    }
}

// Each class has kind 1.
fn write_kinds(part: &mut [u8], v: usize)
    requires { (length part.old ≡ 64) × (v ≤ 64) }
    ensures { part.new ≡ any_kinds v }
{
    fill_front(part, v, 1);
}

// No link of any class is known.
fn write_rows(part: &mut [u8], v: usize)
    requires { (length part.old ≡ 1024) × (v ≤ 64) }
    ensures { part.new ≡ no_links v }
{
    fill_front(part, 16 * v, 255);
}

// Writes all the session's own bytes as opening leaves them.
pub fn write_fresh(session: &mut [u8], n: u8, v: u8)
    requires { (length session.old ≡ session_size) × (v ≤ 64) }
    ensures { session.new ≡ fresh_session n v }
{
    let joints = usize::from(v);
    session[..CLASSES].copy_from_slice(&[n, v]);
    write_classes(&mut session[CLASSES..KINDS], joints);
    write_kinds(&mut session[KINDS..ROWS], joints);
    write_rows(&mut session[ROWS..SESSION], joints);
}

// The first 64 class numbers, kinds and rows put into the session's bytes; all else stays.
pub fn store(session: &mut [u8], classes: &[u8], kinds: &[u8], rows: &[u8])
    requires fact_1 { session_size ≤ length session.old }
    requires fact_2 { (64 ≤ length classes.now) × (64 ≤ length kinds.now) × (1024 ≤ length rows.now) }
    ensures { session.new ≡ with_form session.old classes.now kinds.now rows.now }
{
    session[CLASSES..KINDS].copy_from_slice(&classes[..64]);
    session[KINDS..ROWS].copy_from_slice(&kinds[..64]);
    session[ROWS..SESSION].copy_from_slice(&rows[..1024]);
}
