// The solved form of a session, unpacked for the solver, with room for a rule's joints behind the rig's.
#![tactic(auto)]

ghost use Rattle.std.specs.Prelude.{◌≡◌, ◌≤◌, length, replicate};
ghost use Rattle.meaning.specs.Asking.{Extends};
ghost use Rattle.solver.specs.Unpacked.{form_of, rows_size};
ghost use Rattle.joints.specs.Layout.{block_form};
ghost use Rattle.unpacking.specs.Nodes.{Nodes};

use joints::Session;
use solver::{Rows, Solved};

// The first `old` bytes are the session's, those up to `all` are free nodes'; the rest stays.
fn put_nodes(to: &mut [u8], part: &[u8], old: usize, all: usize, free: u8)
    requires { (old ≤ all) × (all ≤ length to.old) × (old ≤ length part.now) }
    ensures { Nodes part.now old all (λ _. free) to.old to.new }
{
    runs::copy(&mut to[..old], &part[..old]);
    runs::repeat(&mut to[old..all], free);
}

// The same with class numbers: each free node is a class of its own.
fn put_classes(to: &mut [u8], part: &[u8], old: usize, all: usize)
    requires { (old ≤ all) × (all ≤ length to.old) × (all ≤ 256) × (old ≤ length part.now) }
    ensures { Nodes part.now old all (λ j. j) to.old to.new }
{
    runs::copy(&mut to[..old], &part[..old]);
    for j in old..all {
        to[j] = j as u8;
    }
}

// The form of a session of v joints, with k free nodes behind them: its nodes, and its rows in `rows`, which are zeros before. Where
// the session is well formed no row names a free node: `top` is v.
pub fn unpack(rows: &mut Rows, session: &Session<'_>, v: usize, k: usize) -> Solved
    requires fact_1 { (v ≤ 64) × (k ≤ 32) }
    requires fact_2 { rows.old ≡ replicate rows_size 0 }
    ensures { Extends v k (block_form session.now) (form_of result rows.new) × (result.top ≡ v) }
{
    let all = v + k;
    let mut class = [0u8; 96];
    let mut kind = [0u8; 96];
    put_classes(&mut class, session.classes(), v, all);
    put_nodes(&mut kind, session.kinds(), v, all, 1);
    put_nodes(rows, session.rows(), 16 * v, 16 * all, 255);
    Solved {
        class,
        kind,
        top: v as u8,
    }
}
