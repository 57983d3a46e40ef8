// The table of times: what it says, whether it is refused, what an order costs by it, and the floor.
ghost use Rattle.std.specs.Prelude.{◌≡◌, ℕ, ◌+◌, ◌*◌, ◌^◌, ◌≤◌, ◌<◌, length, get_or};
ghost use Rattle.tile_order.specs.Below.{any};
ghost use Rattle.tile_order.specs.Orders as Orders;
ghost use Rattle.tile_order.specs.Tables as Tables;

// The highest time, in milliseconds.
const LONGEST: u64 = 10_000_000;

// The times from each of n tiles to each, row after row.
#[derive(Clone, Copy)]
pub struct Table<'a> {
    pub n: usize,
    pub times: &'a [u32],
    ghost square: { length times.now ≡ n * n },
}

impl Table<'_> {
    // The time from one tile to another.
    pub fn leg(&self, from: usize, to: usize) -> u64
        requires { (from < self.now.n) × (to < self.now.n) }
        ensures { (result ≡ Tables.time self.now.n self.now.times.now from to) × (result < 2 ^ 32) }
    {
        self.times[from * self.n + to] as u64
    }

    // Whether the time from tile i to tile j, another one, is outside 1 to 10,000,000.
    fn outside(&self, i: usize, j: usize) -> bool
        requires { (i < self.now.n) × (j < self.now.n) }
        ensures { result ≡ Tables.outside self.now.n self.now.times.now i j }
    {
        i != j && !(1..=LONGEST).contains(&self.leg(i, j))
    }

    // Whether a time from tile i is outside.
    fn row_outside(&self, i: usize) -> bool
        requires { i < self.now.n }
        ensures { result ≡ any (Tables.outside self.now.n self.now.times.now i) self.now.n }
    {
        for j in 0..self.n {
            if self.outside(i, j) {
                return true;
            }
        }
        false
    }

    // Whether a time of the table is outside.
    fn any_outside(&self) -> bool
        ensures { result ≡ Tables.any_outside self.now.n self.now.times.now }
    {
        for i in 0..self.n {
            if self.row_outside(i) {
                return true;
            }
        }
        false
    }

    // The least time into tile i.
    fn least(&self, i: usize) -> u64
        requires { i < self.now.n }
        ensures { (result ≡ Tables.least self.now.n self.now.times.now i) × (result ≤ Tables.longest) }
    {
        let mut m = LONGEST;
        for j in 0..self.n {
            if j != i {
                m = m.min(self.leg(j, i));
            }
        }
        m
    }

    // The sum of the least times into the tiles but the first.
    pub fn floor(&self) -> u64
        requires { (0 < self.now.n) × (self.now.n ≤ 10) }
        ensures { result ≡ Tables.floor self.now.n self.now.times.now }
    {
        let mut sum = 0;
        for i in 0..self.n - 1 {
            sum += self.least(i + 1);
        }
        sum
    }

    // What an order costs.
    pub fn cost_of(&self, order: &[usize; 10]) -> u64
        requires { (0 < self.now.n) × (self.now.n ≤ 10) × ((i : ℕ) → i < self.now.n → get_or order.now i 0 < self.now.n) }
        ensures { result ≡ Orders.cost self.now.n self.now.times.now order.now }
    {
        let mut sum = 0;
        for i in 0..self.n - 1 {
            sum += self.leg(order[i], order[i + 1]);
        }
        sum
    }
}

// Whether the tiles or their table are refused.
pub fn refused(n: usize, times: &[u32]) -> bool
    ensures { result ≡ Tables.refused n times.now }
{
    if n == 0 || 10 < n || times.len() != n * n {
        return true;
    }
    Table { n, times }.any_outside()
}
