// Rolled states as a row of words: a rolling appends one word, and states that are rolled one after another are windows of the row. So four of them
// side by side are read without being written first (document 02, request 10).
#![tactic(auto)]

ghost use Rattle.std.specs.Prelude.{◌≡◌, ◌+◌, ◌%◌, ◌≤◌, List, ℕ, replicate};
ghost use Rattle.rolling.specs.Rolling.{roll_in, roll_out};
ghost use Rattle.rows.specs.Row.{begun, state_at, appended, renewed, renewed_at};

use std::marker::PhantomData;

// A way to roll a state.
pub trait Rolling {
    ghost rolled: { List ℕ → List ℕ };

    // The state rolled once.
    fn roll(k: [u32; 12]) -> [u32; 12]
        ensures { result ≡ rolled k };
}

// Input rolling, by which masks are rolled.
pub struct Input;

impl Rolling for Input {
    ghost rolled = { roll_in };

    fn roll(k: [u32; 12]) -> [u32; 12] {
        rolling::roll_in(k)
    }
}

// Output rolling, by which the states of an expansion are rolled.
pub struct Output;

impl Rolling for Output {
    ghost rolled = { roll_out };

    fn roll(k: [u32; 12]) -> [u32; 12] {
        rolling::roll_out(k)
    }
}

// A row of states rolled by R: the next four are its windows from word `at` on, and the words of the four after these are there too. It has room for a
// state and sixteen times four rollings, and four words more.
#[derive(Drop)]
pub struct Row<R> {
    pub words: [u32; 80],
    pub at: usize,
    by: PhantomData<R>,
    ghost room: { at + 20 ≤ 80 },
    ghost whole: { at % 4 ≡ 0 },
}

// A row that begins with the words of k.
pub fn row_of(k: [u32; 12]) -> [u32; 80]
    ensures { result ≡ begun 12 k (replicate 80 0) }
{
    let mut r = [0u32; 80];
    for p in 0..12 {
        r[p] = k[p / 3 + 4 * (p % 3)];
    }
    r
}

// The state whose s_0 is word n. Over words and a place: a row is made, and advances, by it before it is whole.
pub fn state_at(r: &[u32; 80], n: usize) -> [u32; 12]
    requires { n + 12 ≤ 80 }
    ensures { result ≡ state_at n r.now }
{
    let mut k = [0u32; 12];
    for i in 0..12 {
        k[i] = r[3 * (i % 4) + i / 4 + n];
    }
    k
}

// Four more words after the state at word n, by either rolling; over words and a place as above.
pub fn append<R: Rolling>(r: &mut [u32; 80], n: usize)
    requires { n + 16 ≤ 80 }
    ensures { r.new ≡ appended R.rolled n r.old }
{
    let k = state_at(r, n);
    let k1 = R::roll(k);
    let k2 = R::roll(k1);
    let k3 = R::roll(k2);
    let k4 = R::roll(k3);
    r[n + 12] = k1[11];
    r[n + 13] = k2[11];
    r[n + 14] = k3[11];
    r[n + 15] = k4[11];
}

// The word from which on a row is used up: a state there has no room for four words more after those of the four rollings.
const USED_UP: usize = 64;

// Where the row is used up, the state at word n being its last one, its last sixteen words become its first; gives where the state then stands. From
// word 64 on it is taken to be used up; callers go by four words and come to just that one.
pub fn renew(r: &mut [u32; 80], n: usize) -> usize
    ensures { (result ≡ renewed_at n) × (r.new ≡ renewed n r.old) }
{
    if n < USED_UP {
        return n;
    }
    r.copy_within(64..80, 0);
    0
}

impl<R: Rolling> Row<R> {
    // The row whose first state is k.
    pub fn new(k: [u32; 12]) -> Self
        ensures { (result.at ≡ 0) × (result.words ≡ appended R.rolled 4 (appended R.rolled 0 (begun 12 k (replicate 80 0)))) }
    {
        let mut words = row_of(k);
        append::<R>(&mut words, 0);
        append::<R>(&mut words, 4);
        Row {
            words,
            at: 0,
            by: PhantomData,
        }
    }

    // The first of the next four states.
    pub fn state(&self) -> [u32; 12]
        ensures { result ≡ state_at self.now.at self.now.words }
    {
        state_at(&self.words, self.at)
    }

    // Four states on. Where the row is then used up, its last sixteen words become its first.
    pub fn advance(&mut self)
        ensures { (self.new.at ≡ renewed_at (self.old.at + 4))
            × (self.new.words ≡ appended R.rolled (renewed_at (self.old.at + 4) + 4) (renewed (self.old.at + 4) self.old.words)) }
    {
        self.at = renew(&mut self.words, self.at + 4);
        append::<R>(&mut self.words, self.at + 4);
    }
}
