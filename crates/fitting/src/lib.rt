// Whether the session's own bytes fit: the clauses of a well-formed block that are about V, classes, kinds and links.
//
// Where no joints are joined, one look at whole runs of bytes tells: no loop of it has a branch beside its end, so that many bytes can be
// handled at once. Its "yes" is proved; its "no" says nothing, and each joint is looked at in turn.
#![tactic(auto)]

ghost use Rattle.std.specs.Prelude.{◌≡◌, ◌<◌, ◌≤◌, true, length};
ghost use Rattle.runs.specs.Runs.{each};
ghost use Rattle.joints.specs.Layout.{block_form};
ghost use Rattle.fitting.specs.Fits.{all, smallest, class_fits, kind_fits, link_fits, joint_fits, joints_fit};
ghost use Rattle.fitting.specs.Apart.{AtMost, ClassesApart, KindsApart, LinksApart};

use joints::Session;

// A session with its number of joints, which is in range, and the number of kinds, told from outside.
#[derive(Drop)]
struct Counted<'a> {
    session: &'a Session<'a>,
    n: usize,
    v: usize,
    ghost in_range: { (1 ≤ v) × (v ≤ 64) },
}

impl<'a> Counted<'a> {
    // Whether j is a class's smallest joint. A number read from the bytes may be no joint, so it is compared with v before it is looked up.
    fn is_smallest(&self, j: usize) -> bool
        ensures { result ≡ smallest self.now.v (block_form self.now.session.now) j }
    {
        j < self.v && usize::from(self.session.class_at(j)) == j
    }

    // Whether the class number of joint j fits: a class's smallest joint, not above j, or 0 where j is no joint.
    fn class_fits(&self, j: usize) -> bool
        requires { j < 64 }
        ensures { result ≡ class_fits self.now.v (block_form self.now.session.now) j }
    {
        let class = usize::from(self.session.class_at(j));
        if j < self.v {
            class <= j && self.is_smallest(class)
        } else {
            class == 0
        }
    }

    // Whether joint j has a kind that fits: a class's smallest joint one from 1 to n - 1, any other joint 0.
    fn kind_fits(&self, j: usize) -> bool
        requires { j < 64 }
        ensures { result ≡ kind_fits self.now.n self.now.v (block_form self.now.session.now) j }
    {
        let kind = usize::from(self.session.kind_at(j));
        if self.is_smallest(j) {
            (1..self.n).contains(&kind)
        } else {
            kind == 0
        }
    }

    // Whether link l of joint j fits: 255 or a class's smallest joint where j is one, else 0.
    fn link_fits(&self, j: usize, l: usize) -> bool
        requires { (j < 64) × (l < 16) }
        ensures { result ≡ link_fits self.now.v (block_form self.now.session.now) j l }
    {
        let link = usize::from(self.session.link_at(j, l));
        if self.is_smallest(j) {
            link == 255 || self.is_smallest(link)
        } else {
            link == 0
        }
    }

    // Whether every link of joint j fits.
    fn row_fits(&self, j: usize) -> bool
        requires { j < 64 }
        ensures { result ≡ all (link_fits self.now.v (block_form self.now.session.now) j) 0 16 }
    {
        (0..16).all(|l| self.link_fits(j, l))
    }

    // Whether class, kind and row of joint j fit.
    fn joint_fits(&self, j: usize) -> bool
        requires { j < 64 }
        ensures { result ≡ joint_fits self.now.n self.now.v (block_form self.now.session.now) j }
    {
        self.class_fits(j) && self.kind_fits(j) && self.row_fits(j)
    }

    // Whether every joint fits, those from v on too.
    fn each_fits(&self) -> bool
        ensures { result ≡ all (joint_fits self.now.n self.now.v (block_form self.now.session.now)) 0 64 }
    {
        (0..64).all(|j| self.joint_fits(j))
    }

    // Whether each of v joints has a class of its own, and no other number has one.
    fn classes_apart(&self) -> bool
        ensures { result ≡ true → ClassesApart self.now.v (block_form self.now.session.now) }
    {
        let (own, rest) = self.session.classes().split_at(self.v);
        rises(own) && runs::is_zero(rest)
    }

    // Whether each of v joints has a kind from 1 to n - 1, and no other number has one. A kind less 1 is the kind and 255: 0 becomes 255.
    fn kinds_apart(&self) -> bool
        ensures { result ≡ true → KindsApart self.now.n self.now.v (block_form self.now.session.now) }
    {
        let (kinds, rest) = self.session.kinds().split_at(self.v);
        let most = usize::from(highest(kinds, 255));
        most < 255 && most + 1 < self.n && runs::is_zero(rest)
    }

    // Whether each link of v joints is 255 or one of them, and no other number has a link. 255 and 1 is 0.
    fn links_apart(&self) -> bool
        ensures { result ≡ true → LinksApart self.now.v (block_form self.now.session.now) }
    {
        let (rows, rest) = self.session.rows().split_at(16 * self.v);
        usize::from(highest(rows, 1)) <= self.v && runs::is_zero(rest)
    }

    // Whether no joints are joined and every joint fits. A "no" says nothing.
    fn all_apart(&self) -> bool
        ensures { result ≡ true → all (joint_fits self.now.n self.now.v (block_form self.now.session.now)) 0 64 ≡ true }
    {
        self.classes_apart() && self.kinds_apart() && self.links_apart()
    }
}

// Whether the bytes rise from 0, one by one. All are looked at, and the answer is given once, behind them. A loop, as is `highest`: its
// `j as u8` is in range by the slice's length, which the closure of a `fold` would not know.
fn rises(part: &[u8]) -> bool
    requires { length part.now ≤ 64 }
    ensures { result ≡ true → part.now ≡ each (λ j. j) 0 (length part.now) }
{
    let mut any = 0u8;
    for (j, x) in part.iter().enumerate() {
        any |= *x ^ j as u8;
    }
    any == 0
}

// A number that no byte of the run is above, once `more` is added to each and 255 is followed by 0.
fn highest(part: &[u8], more: u8) -> u8
    ensures { AtMost more result part.now }
{
    let mut most = 0u8;
    for x in part {
        most = runs::larger(most, x.wrapping_add(more));
    }
    most
}

// Whether V is in range, and each joint fits.
pub fn joints_fit(session: &Session<'_>, n: usize) -> bool
    ensures { result ≡ joints_fit n session.now }
{
    let v = usize::from(session.joint_count());
    if !(1..=64).contains(&v) {
        return false;
    }
    let joints = Counted { session, n, v };
    joints.all_apart() || joints.each_fits()
}
