// Runs of bytes: repeated, copied, tested, many bytes at once. All but `copy` and `is_zero` are one method of std's each: what a caller has of them
// here is the contract, in the words that its own clauses use.
#![tactic(auto)]

ghost use Rattle.std.specs.Prelude.{◌≡◌, true, false, max, length, replicate};
ghost use Rattle.runs.specs.Runs.{all_zero, within};

// x at every place.
pub fn repeat(to: &mut [u8], x: u8)
    ensures { to.new ≡ replicate (length to.old) x }
{
    to.fill(x);
}

// The bytes of `from`, which has as many. A loop by index: `copy_from_slice` may become a call of C's memmove, as where a table is put into a block,
// and a host without a C library would have to bring that.
pub fn copy(to: &mut [u8], from: &[u8])
    requires { length to.old ≡ length from.now }
    ensures { to.new ≡ from.now }
{
    for (i, x) in to.iter_mut().enumerate() {
        *x = from[i];
    }
}

// Whether every byte is zero. All are looked at, and the answer is given once, behind them.
pub fn is_zero(run: &[u8]) -> bool
    ensures { result ≡ all_zero run.now }
{
    run.iter().fold(0, |any, &x| any | x) == 0
}

// Whether two runs of the same length have the same bytes.
pub fn same(a: &[u8], b: &[u8]) -> bool
    requires { length a.now ≡ length b.now }
    ensures { (result ≡ true → a.now ≡ b.now) × (result ≡ false → a.now ≡ b.now → ⊥) }
{
    a == b
}

// The larger of two.
pub fn larger(a: u8, b: u8) -> u8
    ensures { result ≡ max a b }
{
    a.max(b)
}

// Whether x is from low to high.
pub fn in_range(x: usize, low: usize, high: usize) -> bool
    ensures { result ≡ within low high x }
{
    (low..=high).contains(&x)
}
