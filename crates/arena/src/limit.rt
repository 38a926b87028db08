// The limit calls (`set_allocation_limit` in the Rust, which takes an option).
ghost use Rattle.std.specs.Prelude.{◌≡◌};
ghost use Rattle.arena.specs.Creation.{set_limit_of, no_limit_of};

use crate::change::Change;
use crate::sound::is_sound;
use crate::{Arena, Outcome, Refusal};

impl Arena {
    pub fn set_allocation_limit_on(&mut self, limit: usize) -> Result<(), Refusal>
        ensures value { result ≡ (set_limit_of self.old limit).answer }
        ensures arena_after { self.new ≡ (set_limit_of self.old limit).arena }
    {
        if !is_sound(&self.lent()) {
            return Err(Refusal::State);
        }
        self.change(Change::Limited(1, limit));
        Ok(())
    }

    pub fn set_allocation_limit(self, limit: usize) -> Outcome<()>
        ensures { result ≡ set_limit_of self limit }
    {
        let mut arena = self;
        let answer = arena.set_allocation_limit_on(limit);
        Outcome { answer, arena }
    }

    pub fn no_allocation_limit_on(&mut self) -> Result<(), Refusal>
        ensures value { result ≡ (no_limit_of self.old).answer }
        ensures arena_after { self.new ≡ (no_limit_of self.old).arena }
    {
        if !is_sound(&self.lent()) {
            return Err(Refusal::State);
        }
        self.change(Change::Limited(0, 0));
        Ok(())
    }

    pub fn no_allocation_limit(self) -> Outcome<()>
        ensures { result ≡ no_limit_of self }
    {
        let mut arena = self;
        let answer = arena.no_allocation_limit_on();
        Outcome { answer, arena }
    }
}
