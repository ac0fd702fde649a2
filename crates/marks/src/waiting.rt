// Rows with new marks, which wait to be dealt with. All of this is only a hint: nothing is said of the marks of a row that waits, so whoever
// takes a row from it looks at its marks.
ghost use Rattle.std.specs.Prelude.{◌≤◌};
ghost use Rattle.marks.specs.Waits.{NoneWaits, StillWaiting, Taken};

// How many rows can wait.
const ROWS: usize = 1024;

// The rows that wait, in a ring; whether a row waits, so that none is there twice; where the ring begins, and how many wait. Arrays, since
// there is no heap.
#[derive(Clone, Copy, Debug, PartialEq, Eq)]
pub struct Waiting {
    ring: [u16; ROWS],
    waits: [bool; ROWS],
    first: usize,
    count: usize,
}

impl Waiting {
    // more than there are new marks, so more than rows wait in all
    pub const TURNS: usize = 1048577;

    // No row waits.
    pub fn new() -> Waiting
        ensures { NoneWaits result }
    {
        Waiting {
            ring: [0; ROWS],
            waits: [false; ROWS],
            first: 0,
            count: 0,
        }
    }

    // Lets a row wait, if it does not. Out of range nothing happens.
    pub fn wait(&mut self, x: usize)
        ensures { StillWaiting self.old self.new }
    {
        if ROWS <= x || self.waits[x] || ROWS <= self.count {
            return;
        }
        self.waits[x] = true;
        // no `From` leads from usize to u16, and `try_from` has an arm that is never taken
        self.ring[(self.first % ROWS + self.count) % ROWS] = x as u16;
        self.count += 1;
    }

    // Lets all rows wait.
    pub fn wait_all(&mut self, names: usize)
        requires { names ≤ 1023 }
        ensures { StillWaiting self.old self.new }
    {
        for x in 0..=names {
            self.wait(x);
        }
    }

    // Takes the row that waits longest.
    pub fn take(&mut self) -> Option<usize>
        ensures { Taken self.old self.new result }
    {
        if self.count == 0 {
            return None;
        }
        let first = self.first % ROWS;
        let x = usize::from(self.ring[first]) % ROWS;
        self.first = (first + 1) % ROWS;
        self.count -= 1;
        self.waits[x] = false;
        Some(x)
    }
}
