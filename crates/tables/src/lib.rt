// The check of kind tables: n × n bytes, of whose entries nothing is assumed.
#![tactic(auto)]

ghost use Rattle.std.specs.Prelude.{◌≡◌, [], ◌∷◌, ◌++◌, ◌+◌, ◌*◌, ◌<◌, Ok, Err};
ghost use Rattle.replies.specs.declared.Cause.TheVariants.{LawBroken};
ghost use Rattle.replies.specs.Replies.{unless, refusal};
ghost use Rattle.kinds.specs.Tables.{meet_of};
ghost use Rattle.tables.specs.Check.{Law, law_reply, breach_of, entries, singles, pairs, triples, table_reply};
ghost use Rattle.tables.specs.Triples.{to_look_at, triples_meant};

use kinds::{KindTable, Table};
use replies::{Cause, Refusal, Reply};

// A law is broken, at the offset of the entry for i and j.
fn broken(kinds: KindTable<'_>, i: usize, j: usize) -> Refusal
    requires { (i < kinds.table.n) × (j < kinds.table.n) }
    ensures { Err result ≡ refusal LawBroken (i * kinds.entry.table.n + j) }
{
    Refusal(Cause::LawBroken, (i * kinds.table.n + j) as u32)
}

// The first entry that is no kind.
fn first_entry(table: Table<'_>) -> Reply
    ensures { result ≡ breach_of table.entry entries }
{
    for (p, &x) in table.entries.iter().enumerate() {
        if table.n <= usize::from(x) {
            return Err(Refusal(Cause::NoKind, p as u32));
        }
    }
    Ok(0)
}

// The first law of i alone that is broken.
#[tactic(auto, using(crate::proofs::OneKind::self_broken, crate::proofs::OneKind::none_broken, crate::proofs::OneKind::any_broken, crate::proofs::OneKind::one_kept))]
fn breach_at(kinds: KindTable<'_>, i: usize) -> Reply
    requires { i < kinds.table.n }
    ensures { result ≡ breach_of kinds.entry.table (λ _. Law.self i ∷ Law.none i ∷ Law.any i ∷ []) }
{
    if kinds.kind_at(i, i) != i {
        return Err(broken(kinds, i, i));
    }
    if kinds.kind_at(0, i) != 0 {
        return Err(broken(kinds, 0, i));
    }
    if kinds.kind_at(1, i) != i {
        return Err(broken(kinds, 1, i));
    }
    Ok(0)
}

// The first law of one kind that is broken. A kind is its number, so the loop counts.
fn first_single(kinds: KindTable<'_>) -> Reply
    ensures { result ≡ breach_of kinds.entry.table singles }
{
    for i in 0..kinds.table.n {
        breach_at(kinds, i)?;
    }
    Ok(0)
}

// The first pair that does not commute. A kind is its number, and each pair is read both ways round, so the loops count.
fn first_pair(kinds: KindTable<'_>) -> Reply
    ensures { result ≡ breach_of kinds.entry.table pairs }
{
    let n = kinds.table.n;
    for i in 0..n {
        for j in 0..n {
            if kinds.kind_at(i, j) != kinds.kind_at(j, i) {
                return Err(broken(kinds, i, j));
            }
        }
    }
    Ok(0)
}

// Whether the triple keeps its law, where ij is meet(i,j).
fn groups(kinds: KindTable<'_>, ij: usize, i: usize, j: usize, k: usize) -> bool
    requires below { (ij < kinds.table.n) × (i < kinds.table.n) × (j < kinds.table.n) × (k < kinds.table.n) }
    requires met { ij ≡ meet_of kinds.table i j }
    ensures { law_reply kinds.entry.table.n kinds.entry.table.entries.now (Law.group i j k)
        ≡ unless result LawBroken (i * kinds.entry.table.n + j) }
{
    let jk = kinds.kind_at(j, k);
    kinds.kind_at(ij, k) == kinds.kind_at(i, jk)
}

// The first triple that breaks its law, of those without 0 and 1 whose first is below its last; none of these begins with n - 1. Where the laws
// before it hold no other need be looked at: one with 0 or 1 in it keeps its law, so does one whose first is its last, and one read
// backwards says the same. (A kind is its number; the label that leaves the loops is a form of the rules, docs/DECISIONS.md.)
fn first_triple(kinds: KindTable<'_>) -> Reply
    ensures { result ≡ breach_of kinds.entry.table (triples_meant to_look_at) }
{
    let n = kinds.table.n;
    'triples: {
        for i in 2..n - 1 {
            for j in 2..n {
                let ij = kinds.kind_at(i, j);
                for k in i + 1..n {
                    if !groups(kinds, ij, i, j, k) {
                        break 'triples Err(broken(kinds, i, j));
                    }
                }
            }
        }
        Ok(0)
    }
}

// The first law of two or three kinds that is broken, where those before it hold.
fn first_several(kinds: KindTable<'_>) -> Reply
    requires { breach_of kinds.table singles ≡ Ok 0 }
    ensures { result ≡ breach_of kinds.entry.table (λ n. pairs n ++ triples n) }
{
    first_pair(kinds)?;
    first_triple(kinds)
}

// The first law that is broken.
fn first_breach(table: Table<'_>) -> Reply
    ensures { result ≡ table_reply table.entry.n table.entry.entries.now }
{
    first_entry(table)?;
    let kinds = KindTable { table };
    first_single(kinds)?;
    first_several(kinds)
}

// What the check of a table finds: done with third 0, or the first breach. None is looked for where the fast test says that there is none.
pub fn check(table: Table<'_>) -> Reply
    ensures { result ≡ table_reply table.entry.n table.entry.entries.now }
{
    if masks::lawful(table) {
        return Ok(0);
    }
    first_breach(table)
}
