// The search: the tiles placed so far stand in `path`, whose last is at place `done`, and `left` are to come. `after` links those that are left: at 0, and at the place
// after each of them, stands the least one that is not below that place, or the number of tiles. Both come back from the deeper search as they were.
ghost use Rattle.std.specs.Prelude.{◌≡◌, false, ◌+◌, ◌-◌, ◌≤◌, ◌<◌, get_or};
ghost use Rattle.tile_order.specs.Inner as Inner;
ghost use Rattle.tile_order.specs.Search as Rules;

use crate::table::Table;

// A search by a table within a budget: the tiles placed and left, the best order so far, its cost, and how many tiles were placed.
#[derive(Clone, Copy)]
pub struct Search<'a> {
    pub table: Table<'a>,
    pub budget: u64,
    pub path: [usize; 10],
    pub after: [usize; 11],
    pub best: [usize; 10],
    pub bound: u64,
    pub placed: u64,
}

impl Search<'_> {
    // The least tile left that is not below `low`, as the next one. Answers whether the budget is used up.
    #[cycle(turn_visit)]
    fn turn(&mut self, left: usize, done: usize, cost: u64, low: usize) -> bool
        requires { Inner.Ready self.old.table.n self.old.table.times.now (left + 1) done self.old.path cost self.old.after
            × Inner.Stands self.old.table.n self.old.path (done + 1) low
            × (get_or self.old.after low 0 < self.old.table.n) }
        ensures result_after { Rules.progress self.new.best self.new.bound self.new.placed result
            ≡ Rules.turn (Rules.visit self.old.table.n self.old.budget self.old.table.times.now left (done + 1))
            self.old.table.n self.old.budget self.old.table.times.now self.old.path done cost
            (get_or self.old.after low 0) (Rules.progress self.old.best self.old.bound self.old.placed false) }
        ensures path_unchanged { self.new.path ≡ self.old.path }
        ensures after_unchanged { self.new.after ≡ self.old.after }
        ensures asked_unchanged { (self.new.table ≡ self.old.table) × (self.new.budget ≡ self.old.budget) }
    {
        if self.budget <= self.placed {
            return true;
        }
        self.placed += 1;
        let x = self.after[low];
        let further = cost + self.table.leg(self.path[done], x);
        if self.bound <= further {
            return false;
        }
        let place = done + 1;
        self.path[place] = x;
        self.after[low] = self.after[x + 1];
        let exhausted = self.visit(left, place, further);
        self.after[low] = x;
        self.path[place] = 0;
        exhausted
    }

    // All ways to go on from the tiles placed. Answers whether the budget is used up.
    #[cycle(turn_visit)]
    pub fn visit(&mut self, left: usize, done: usize, cost: u64) -> bool
        requires { Inner.Ready self.old.table.n self.old.table.times.now left done self.old.path cost self.old.after }
        ensures result_after { Rules.progress self.new.best self.new.bound self.new.placed result
            ≡ Rules.visit self.old.table.n self.old.budget self.old.table.times.now left done self.old.path cost
            (Rules.progress self.old.best self.old.bound self.old.placed false) }
        ensures path_unchanged { self.new.path ≡ self.old.path }
        ensures after_unchanged { self.new.after ≡ self.old.after }
        ensures asked_unchanged { (self.new.table ≡ self.old.table) × (self.new.budget ≡ self.old.budget) }
    {
        if left == 0 {
            let path = self.path;
            self.best = path;
            self.bound = cost;
            return false;
        }
        let mut low = 0;
        // A while: each step is read from the links, so a for would be no plainer.
        while self.after[low] < self.table.n {
            if self.turn(left - 1, done, cost, low) {
                return true;
            }
            low = self.after[low] + 1;
        }
        false
    }
}
