// Draws from a seed of 32 bits, one after the other.
ghost use Rattle.std.specs.Prelude.{◌≡◌, ◌<◌};
ghost use Rattle.release.specs.Kinds.{numbered};
ghost use Rattle.practice.specs.Draws.{next, drawn, after_draws};
ghost use Rattle.practice.specs.Practice.{kind_from};

use release::Kind;

#[derive(Clone, Copy, Debug, PartialEq, Eq)]
pub struct Draws {
    pub state: u32,
}

impl Draws {
    // One of so many choices. A product or a sum past 32 bits starts again from 0, as the definition's remainder does.
    pub fn draw(&mut self, choices: usize) -> usize
        requires { 0 < choices }
        ensures state { self.new.state ≡ next self.old.state }
        ensures choice { result ≡ drawn (next self.old.state) choices }
    {
        self.state = self.state.wrapping_mul(1664525).wrapping_add(1013904223);
        (self.state / 65536) as usize % choices
    }

    // The kind of a name's axiom, or none. With no roles, a restriction becomes none.
    pub fn kind(&mut self, roles: usize) -> Option<Kind>
        ensures state { self.new.state ≡ next self.old.state }
        ensures kind { numbered result ≡ kind_from roles (next self.old.state) }
    {
        // By `as`: a number below 5 fits.
        let Ok(kind) = Kind::try_from(self.draw(5) as u8) else {
            return None;
        };
        if roles == 0 && kind.is_restriction() {
            return None;
        }
        Some(kind)
    }

    // The draws after those of so many kinds.
    pub fn after(self, draws: usize) -> Draws
        ensures { result.state ≡ after_draws draws self.state }
    {
        let mut later = self;
        for _draw in 0..draws {
            later.draw(5);
        }
        later
    }
}
