// The solver: one fact more, and all that follows from it, or a clash.
#![tactic(auto)]

ghost use Rattle.std.specs.Prelude.{◌≡◌, ◌≢◌, true, false, is_ok, IfOk, OnOk, List, [], ◌∷◌, ℕ, ◌+◌, ◌-◌, ◌*◌, ◌<◌, ◌≤◌, get_or, length, set};
ghost use Rattle.kinds.specs.Tables.{meet_of};
ghost use Rattle.runs.specs.Runs.{each};
ghost use Rattle.meaning.specs.Picture.{Fact as PictureFact};
ghost use Rattle.meaning.specs.Picture.Fact.{same};
ghost use Rattle.meaning.specs.Form.{list_form, unknown, classes};
ghost use Rattle.meaning.specs.Solving.{InRange};
ghost use Rattle.meaning.specs.declared.Fact.{Fact as CodeFact};
ghost use Rattle.solver.specs.Unpacked.{form_of, rows_size, Named, node_fact, Ready, Took, TookPlainly, Gives, Folded};
ghost use Rattle.solver.specs.Steps.{renumber, known_of, both_known, InOrder, Renumbered, RowOf, RowPut, RowsJoined, Unnamed, Joined};
ghost use Rattle.solver.specs.Steps.{Pushed, Joinable, JoinReady, JoinStep, JoinedAlone, KindMet, LinkPut};

use kinds::Table;
use meaning::Fact;

// The unpacked solved form of up to 96 nodes: the rig's joints first, then those of a rule. What is known of the nodes goes by value; the
// rows, 16 links for each node, are lent beside it. A link not known is the byte 255 and no None: the rows are those of the block.
// Class numbers and kinds are two arrays and not one of pairs, as in the block they are unpacked from.
#[derive(Clone, Copy)]
pub struct Solved {
    // The class number of each node, the smallest node of its class; 0 behind the nodes.
    pub class: [u8; 96],
    // The kind of each class, at its smallest node; 0 at any other.
    pub kind: [u8; 96],
    // From this node on no row names one, where that is asked for (`Named`).
    pub top: u8,
}

// No picture satisfies the facts. Nothing is then said of the nodes and the rows.
#[derive(Clone, Copy, PartialEq, Eq)]
pub struct Clash;

// The rows of 96 nodes, 16 links for each.
pub type Rows = [u8; 1536];

// A fact on nodes: a kind, an equality, or a numbered link.
pub type NodeFact = Fact<u8>;

// b becomes a, any other number stays.
fn renumbered(x: u8, b: u8, a: u8) -> u8
    ensures { result ≡ renumber b a x }
{
    if x == b { a } else { x }
}

// Every b in s becomes a.
fn renumber_all(s: &mut [u8], b: u8, a: u8)
    ensures { Renumbered s.old b a s.new }
{
    for x in s.iter_mut() {
        *x = renumbered(*x, b, a);
    }
}

// The row of node j.
fn row_of(rows: &Rows, j: usize) -> [u8; 16]
    requires { j < 96 }
    ensures { RowOf rows.now j result }
{
    let mut row = [0u8; 16];
    row.copy_from_slice(&rows[j * 16..j * 16 + 16]);
    row
}

// The row of node j becomes row.
fn put_row(rows: &mut Rows, j: usize, row: [u8; 16])
    requires { j < 96 }
    ensures { RowPut rows.old j row rows.new }
{
    rows[j * 16..j * 16 + 16].copy_from_slice(&row);
}

// Of two links the one that is known, the first where both are.
fn known_of(x: u8, y: u8) -> u8
    ensures { result ≡ known_of x y }
{
    if x == 255 { y } else { x }
}

// The row of a class made of two: each link that one of them knows. (Three rows are gone through at one place; an iterator over the three is no plainer.)
fn merged(x: [u8; 16], y: [u8; 16]) -> [u8; 16]
    ensures { (l : ℕ) → l < 16 → get_or result l 0 ≡ known_of (get_or x l 0) (get_or y l 0) }
{
    let mut row = [0u8; 16];
    for l in 0..16 {
        row[l] = known_of(x[l], y[l]);
    }
    row
}

// Whether both links are known.
fn both_known(x: u8, y: u8) -> bool
    ensures { result ≡ both_known x y }
{
    (x != 255) & (y != 255)
}

// Where both rows know a link, its two ends are a new pair. The new number of pairs.
// Each pair is written in any case, and the next one over it where it does not count: a filter would ask at each link.
fn pushed(x: [u8; 16], y: [u8; 16], pairs: &mut [(u8, u8)], size: usize) -> usize
    requires { size + 16 ≤ length pairs.old }
    ensures { Pushed 16 (λ l. get_or x l 0) (λ l. get_or y l 0) pairs.old size pairs.new result }
{
    let mut count = size;
    for l in 0..16 {
        pairs[count] = (x[l], y[l]);
        count += usize::from(both_known(x[l], y[l]));
    }
    count
}

// Two different numbers, the smaller first.
fn in_order(a: u8, b: u8) -> (u8, u8)
    requires { a ≢ b }
    ensures { InOrder a b result.0 result.1 }
{
    (a.min(b), a.max(b))
}

// The class b is joined to a, which has kind k from then on.
// On slices, as the steps below are: a slice keeps its length behind a call, while of the arrays behind `&mut self` each step would have to
// promise it, and that `top` stays.
fn join_classes(class: &mut [u8], kind: &mut [u8], a: u8, b: u8, k: u8)
    requires { (length kind.old ≡ 96) × (a < 96) × (b < 96) }
    ensures { Renumbered class.old b a class.new × (kind.new ≡ set (set kind.old a k) b 0) }
{
    renumber_all(class, b, a);
    kind[a as usize] = k;
    kind[b as usize] = 0;
}

// The row of a gets the links that b knows and a does not, that of b is given up, and every link to b leads to a. `named` may be false
// where no row names b: then there is none.
fn join_rows(rows: &mut Rows, v: usize, a: u8, b: u8, named: bool)
    requires fact_1 { (v ≤ 96) × (a < b) × (b < v) }
    requires fact_2 { (named ≡ false → Unnamed b rows.old) }
    ensures { RowsJoined rows.old v a b rows.new }
{
    let x = row_of(rows, a as usize);
    let y = row_of(rows, b as usize);
    put_row(rows, a as usize, merged(x, y));
    put_row(rows, b as usize, [0u8; 16]);
    if named {
        renumber_all(&mut rows[..16 * v], b, a);
    }
}

// The class high is joined to low, which has kind k from then on.
fn join_two(
    class: &mut [u8],
    kind: &mut [u8],
    rows: &mut Rows,
    v: usize,
    low: u8,
    high: u8,
    k: u8,
    named: bool,
)
    requires fact_1 { ((n : ℕ) × Joinable n v class.old kind.old rows.old low high) }
    requires fact_2 { (named ≡ false → Unnamed high rows.old) }
    ensures { Joined (list_form class.old kind.old rows.old) low high k
        (list_form class.new kind.new rows.new) }
{
    join_rows(rows, v, low, high, named);
    join_classes(class, kind, low, high, k);
}

// The last pair is taken off, the classes low and high are joined, and the ends of the links known in both are new pairs;
// or the two kinds have nothing in common. The new number of pairs.
fn join_step(
    class: &mut [u8],
    kind: &mut [u8],
    rows: &mut Rows,
    table: Table<'_>,
    v: usize,
    low: u8,
    high: u8,
    pairs: &mut [(u8, u8)],
    size: usize,
) -> Result<usize, Clash>
    requires { JoinReady table.n v table.entries.now class.old kind.old rows.old low high pairs.old size }
    ensures { JoinStep (meet_of table.entry) (list_form class.old kind.old rows.old) low high
        pairs.old (size - 1)
        result (list_form class.new kind.new rows.new) pairs.new }
{
    let i = kind[low as usize];
    let j = kind[high as usize];
    let k = table.meet(i as usize, j as usize);
    if k == 0 {
        return Err(Clash);
    }
    let x = row_of(rows, low as usize);
    let y = row_of(rows, high as usize);
    let count = pushed(x, y, pairs, size - 1);
    join_two(class, kind, rows, v, low, high, k, true);
    Ok(count)
}

// The kind of x's class is met with s. A clash where they have nothing in common: then nothing is changed.
fn met_kind(class: &[u8], kind: &mut [u8], table: Table<'_>, x: u8, s: u8) -> Result<(), Clash>
    requires class_len { (length class.now ≡ 96) × (length kind.old ≡ 96) × (x < 96) × (get_or class.now x 0 < 96) }
    requires kinds { (get_or kind.old (get_or class.now x 0) 0 < table.n) × (s < table.n) }
    ensures { KindMet (meet_of table.entry) class.now kind.old x s (is_ok result) kind.new }
{
    let a = class[x as usize] as usize;
    let known = kind[a];
    let met = table.meet(known as usize, s as usize);
    if met == 0 {
        return Err(Clash);
    }
    kind[a] = met;
    Ok(())
}

// Where link l of x's class leads.
fn end_of(class: &[u8], rows: &Rows, x: u8, l: u8) -> u8
    requires { (length class.now ≡ 96) × (x < 96) × (get_or class.now x 0 < 96) × (l < 16) }
    ensures { result ≡ get_or rows.now (get_or class.now x 0 * 16 + l) 0 }
{
    rows[class[x as usize] as usize * 16 + l as usize]
}

// Link l of x's class leads to y's class. False where it was known already: then nothing is changed.
fn put_link(class: &[u8], rows: &mut Rows, x: u8, l: u8, y: u8) -> bool
    requires { (length class.now ≡ 96) × (x < 96) × (get_or class.now x 0 < 96) × (l < 16) × (y < 96) }
    ensures { LinkPut class.now rows.old x l y result rows.new }
{
    let at = class[x as usize] as usize * 16 + l as usize;
    if rows[at] != 255 {
        return false;
    }
    rows[at] = class[y as usize];
    true
}

impl Solved {
    // x and y made one, and all that follows from it. The pairs still to be made one wait in a list. A join adds at most 16
    // pairs and leaves one class less, so that 16 × 97 places are enough for 96 nodes.
    fn with_same(
        mut self,
        rows: &mut Rows,
        table: Table<'_>,
        v: usize,
        x: u8,
        y: u8,
    ) -> Result<Solved, Clash>
        requires { Ready table.n v table.entries.now (form_of self rows.old) × (x < v) × (y < v) }
        ensures { Took table.entry.n (meet_of table.entry) v (form_of self rows.old) (same x y ∷ []) result (λ next. form_of next rows.new)
            × IfOk result (λ next. next.top ≡ v) }
    {
        let mut pairs = [(0u8, 0u8); 1552];
        pairs[0] = (x, y);
        let mut size = 1;
        while 0 < size {
            let (p, q) = pairs[size - 1];
            let a = self.class[p as usize];
            let b = self.class[q as usize];
            if a == b {
                size -= 1;
            } else {
                let o = in_order(a, b);
                let class = &mut self.class;
                let kind = &mut self.kind;
                size = join_step(class, kind, rows, table, v, o.0, o.1, &mut pairs, size)?;
            }
        }
        self.top = v as u8;
        Ok(self)
    }

    // The form with one fact more and all that follows from it, or a clash.
    pub fn with_fact(
        mut self,
        rows: &mut Rows,
        table: Table<'_>,
        v: usize,
        fact: NodeFact,
    ) -> Result<Solved, Clash>
        requires { Ready table.n v table.entries.now (form_of self rows.old) × InRange table.n v (node_fact fact) }
        ensures { Took table.entry.n (meet_of table.entry) v (form_of self rows.old) (node_fact fact ∷ []) result (λ next. form_of next rows.new)
            × IfOk result (λ next. next.top ≡ v) }
    {
        match fact {
            NodeFact::Kind(x, s) => {
                met_kind(&self.class, &mut self.kind, table, x, s)?;
                self.top = v as u8;
                Ok(self)
            }
            NodeFact::Same(x, y) => self.with_same(rows, table, v, x, y),
            // Where the link is known already, its end and y are made one.
            NodeFact::Link(x, l, y) => {
                if put_link(&self.class, rows, x, l, y) {
                    self.top = v as u8;
                    return Ok(self);
                }
                let end = end_of(&self.class, rows, x, l);
                self.with_same(rows, table, v, end, y)
            }
        }
    }

    // x and y made one, where nothing more follows from it. A "no" changes nothing.
    fn made_one(&mut self, rows: &mut Rows, table: Table<'_>, v: usize, x: u8, y: u8) -> bool
        requires ready { Ready table.n v table.entries.now (form_of self.old rows.old) × Named self.old.top (form_of self.old rows.old) }
        requires lent { (x < v) × (y < v) }
        ensures { TookPlainly table.entry.n (meet_of table.entry) v (form_of self.old rows.old) (same x y) result (form_of self.new rows.new)
            × Named self.new.top (form_of self.new rows.new) }
    {
        let a = self.class[x as usize];
        let b = self.class[y as usize];
        if a == b {
            return true;
        }
        let o = in_order(a, b);
        let top = self.top;
        joined_alone(
            &mut self.class,
            &mut self.kind,
            rows,
            top,
            table,
            v,
            o.0,
            o.1,
        )
    }

    // One fact taken in place, where at most two classes are joined and nothing more follows from it. A "no" says nothing, and changes nothing.
    pub fn take_plainly(
        &mut self,
        rows: &mut Rows,
        table: Table<'_>,
        v: usize,
        fact: NodeFact,
    ) -> bool
        requires ready { Ready table.n v table.entries.now (form_of self.old rows.old) × Named self.old.top (form_of self.old rows.old) }
        requires lent { InRange table.n v (node_fact fact) }
        ensures { TookPlainly table.entry.n (meet_of table.entry) v (form_of self.old rows.old) (node_fact fact) result (form_of self.new rows.new)
            × Named self.new.top (form_of self.new rows.new) }
    {
        match fact {
            NodeFact::Kind(x, s) => { met_kind(&self.class, &mut self.kind, table, x, s).is_ok() }
            NodeFact::Same(x, y) => self.made_one(rows, table, v, x, y),
            NodeFact::Link(x, l, y) => {
                let c = self.class[y as usize];
                if put_link(&self.class, rows, x, l, y) {
                    // No `max`: where nothing is stored, the next fact need not wait for it.
                    if self.top <= c {
                        self.top = c + 1;
                    }
                    return true;
                }
                let end = end_of(&self.class, rows, x, l);
                if end == c {
                    return true;
                }
                self.made_one(rows, table, v, end, y)
            }
        }
    }

    // One fact and all that follows from it, by value, and the form put in the place of this one; or a clash.
    pub fn take_wholly(
        &mut self,
        rows: &mut Rows,
        table: Table<'_>,
        v: usize,
        fact: NodeFact,
    ) -> Result<(), Clash>
        requires ready { Ready table.n v table.entries.now (form_of self.old rows.old) }
        requires lent { InRange table.n v (node_fact fact) }
        ensures { Took table.entry.n (meet_of table.entry) v (form_of self.old rows.old) (node_fact fact ∷ []) result (λ _. form_of self.new rows.new)
            × OnOk result (self.new.top ≡ v) }
    {
        *self = self.with_fact(rows, table, v, fact)?;
        Ok(())
    }

    // The facts 0 to count - 1 taken, one after the other: each in place where little follows from it, else with all that does. Where one
    // clashes, how many were taken before it.
    pub fn take_all<F: Fn(usize) -> NodeFact>(
        &mut self,
        rows: &mut Rows,
        table: Table<'_>,
        v: usize,
        count: usize,
        fact: F,
    ) -> Result<(), usize>
        requires ready { Ready table.n v table.entries.now (form_of self.old rows.old) × Named self.old.top (form_of self.old rows.old) }
        requires callable { (i : ℕ) → i < count → F.pre fact i }
        requires in_range { (i : ℕ) (f : CodeFact ℕ) → i < count → F.post fact i f → InRange table.n v (node_fact f) }
        ensures folded { (facts : ℕ → PictureFact ℕ) → Gives (F.post fact) count facts
            → Folded table.entry.n (meet_of table.entry) v (form_of self.old rows.old) (each facts 0 count) result (form_of self.new rows.new) }
        ensures named { OnOk result (Named self.new.top (form_of self.new rows.new)) }
    {
        for i in 0..count {
            let next = fact(i);
            if self.take_plainly(rows, table, v, next) {
                continue;
            }
            if self.take_wholly(rows, table, v, next).is_err() {
                return Err(i);
            }
        }
        Ok(())
    }
}

// Whether no link is known in both rows; a "no" says nothing. All are looked at, and the answer is given once, behind them.
fn none_in_both(x: [u8; 16], y: [u8; 16]) -> bool
    ensures { result ≡ true → (l : ℕ) → l < 16 → get_or x l 0 ≢ unknown → get_or y l 0 ≢ unknown → ⊥ }
{
    let mut any = false;
    for l in 0..16 {
        any |= both_known(x[l], y[l]);
    }
    !any
}

// The classes low and high joined, where nothing more follows from it. A "no" changes nothing.
fn joined_alone(
    class: &mut [u8],
    kind: &mut [u8],
    rows: &mut Rows,
    top: u8,
    table: Table<'_>,
    v: usize,
    low: u8,
    high: u8,
) -> bool
    requires ready { Ready table.n v table.entries.now (list_form class.old kind.old rows.old) × Named top (list_form class.old kind.old rows.old) }
    requires joinable { Joinable table.n v class.old kind.old rows.old low high }
    ensures { JoinedAlone (meet_of table.entry) (list_form class.old kind.old rows.old) low high
        result (list_form class.new kind.new rows.new) }
{
    let i = kind[low as usize];
    let j = kind[high as usize];
    let k = table.meet(i as usize, j as usize);
    if k == 0 {
        return false;
    }
    let x = row_of(rows, low as usize);
    let y = row_of(rows, high as usize);
    if !none_in_both(x, y) {
        return false;
    }
    join_two(class, kind, rows, v, low, high, k, high < top);
    true
}

// How many classes the nodes below v make: each has one node that is numbered by itself. (Added up without a branch; a node is its place.)
pub fn classes_in(class: &[u8], v: usize) -> usize
    requires { v ≤ length class.now }
    ensures { (kind rows : List ℕ) → result ≡ classes (list_form class.now kind rows) v }
{
    let mut count = 0;
    for j in 0..v {
        count += usize::from(class[j] as usize == j);
    }
    count
}
