// Walks of n steps, forward and back. Ordinary steps go eight in a straight line. Tables are lent.
#![tactic(auto)]

ghost use Rattle.std.specs.Prelude.{◌≡◌, ◌*◌};
ghost use Rattle.generator.specs.Registers.{Registers, walked};
ghost use Rattle.generator.specs.Functions.{next_in, previous_by};

use generator::{BackTables, Kind, State, step, step_back};

// ---- a step of a walk

// What a walk repeats: a step of a state.
trait Step {
    // What it makes of the registers.
    ghost map: { Self → Registers → Registers };

    fn take(&self, s: State) -> State
        ensures { result ≡ walked (map self.now) 1 s };
}

// A step forward, its keystream word dropped: here, and nowhere else.
#[derive(Clone, Copy)]
struct StepOn<'a> {
    kind: Kind,
    tables: &'a [[u64; 256]; 10],
}

impl<'a> Step for StepOn<'a> {
    ghost map = { λ f. next_in f.tables.now f.kind };

    fn take(&self, s: State) -> State {
        step(self.kind, s, self.tables).state
    }
}

// A step back.
#[derive(Clone, Copy)]
struct StepBack<'a> {
    kind: Kind,
    tables: BackTables<'a>,
}

impl<'a> Step for StepBack<'a> {
    ghost map = { λ b. previous_by b.tables.columns.now b.tables.bytes.now b.tables.inverse.now b.kind };

    #[inline(always)]
    fn take(&self, s: State) -> State {
        step_back(self.kind, s, self.tables)
    }
}

// ---- walks by any step

// Eight steps. Unrolled by hand: as a loop of eight turns it took 1.6 times the instructions.
fn eight_steps<S: Step>(by: &S, s: State) -> State
    ensures { result ≡ walked (S.map by.now) 8 s }
{
    let a = by.take(s);
    let b = by.take(a);
    let c = by.take(b);
    let d = by.take(c);
    let e = by.take(d);
    let f = by.take(e);
    let g = by.take(f);
    by.take(g)
}

// n times eight steps. A loop of its own beside `by_one`, since eight steps are no step of the trait: its map is one step's.
fn by_eight<S: Step>(by: &S, s: State, n: u64) -> State
    ensures { result ≡ walked (S.map by.now) (8 * n) s }
{
    let mut t = s;
    for _ in 0..n {
        t = eight_steps(by, t);
    }
    t
}

// n steps.
fn by_one<S: Step>(by: &S, s: State, n: u64) -> State
    ensures { result ≡ walked (S.map by.now) n s }
{
    let mut t = s;
    for _ in 0..n {
        t = by.take(t);
    }
    t
}

// n steps, by eight as far as that goes.
fn walk<S: Step>(by: &S, s: State, n: u64) -> State
    ensures { result ≡ walked (S.map by.now) n s }
{
    let t = by_eight(by, s, n / 8);
    by_one(by, t, n % 8)
}

// ---- walks forward and back, a function for each direction, since each lends its own tables

// Steps by eight are ordinary, so that none of them tests its kind.

// n steps.
pub fn forward(kind: Kind, s: State, n: u64, tables: &[[u64; 256]; 10]) -> State
    ensures { result ≡ walked (next_in tables.now kind) n s }
{
    let on = StepOn { kind, tables };
    match kind {
        Kind::Ordinary => walk(&on, s, n),
        Kind::Initial => by_one(&on, s, n),
    }
}

// n steps back.
pub fn backward(kind: Kind, s: State, n: u64, tables: BackTables<'_>) -> State
    ensures { result ≡ walked (previous_by tables.entry.columns.now tables.entry.bytes.now tables.entry.inverse.now kind) n s }
{
    let back = StepBack { kind, tables };
    match kind {
        Kind::Ordinary => walk(&back, s, n),
        Kind::Initial => by_one(&back, s, n),
    }
}
