//! The numbers of leaves or of inner nodes.
ghost use Rattle.std.specs.Prelude.{◌≡◌, ◌+◌, ◌<◌, ◌≤◌, [], length, IfOk, OnOk, nat_lt, vec_capacity};
ghost use Rattle.tree_shape.specs.Numbers.{numbers_view, next_number, numbers_without_next, given_back};

use knit_base::NoMemory;
use std::alloc::Global;

/// Numbers given back, the next one last, and the count of numbers drawn.
#[derive(Drop)]
pub(crate) struct Numbers {
    pub(crate) free: Vec<u32>,
    pub(crate) drawn: u32,
}

impl Numbers {
    pub(crate) fn new(alloc: Global) -> Numbers
        ensures { numbers_view result ≡ record { free = []; drawn = 0 } }
    {
        Numbers {
            free: Vec::new(alloc),
            drawn: 0,
        }
    }

    /// The number that `draw` answers.
    pub(crate) fn next(&self) -> u32
        ensures { result ≡ next_number (numbers_view self.now) }
    {
        match self.free.as_slice().last() {
            Some(number) => *number,
            None => self.drawn,
        }
    }

    /// Whether every number that may be drawn next has room to be given back.
    pub(crate) fn has_room(&self) -> bool
        ensures { result ≡ nat_lt self.now.drawn (vec_capacity self.now.free) }
    {
        (self.drawn as usize) < self.free.capacity()
    }

    pub(crate) fn reserve_one(&mut self) -> Result<(), NoMemory>
        requires few { self.old.drawn ≤ 65536 }
        requires free { length self.old.free.items ≤ self.old.drawn }
        ensures ok { OnOk result (self.new.drawn < vec_capacity self.new.free) }
        ensures same { numbers_view self.new ≡ numbers_view self.old }
        ensures capacity { vec_capacity self.old.free ≤ vec_capacity self.new.free }
    {
        let missing = self.drawn as usize + 1 - self.free.as_slice().len();
        self.free.reserve(missing)?;
        Ok(())
    }

    pub(crate) fn draw(&mut self) -> u32
        requires { self.old.drawn ≤ 65536 }
        ensures number { result ≡ next_number (numbers_view self.old) }
        ensures numbers { numbers_view self.new ≡ numbers_without_next (numbers_view self.old) }
        ensures capacity { vec_capacity self.new.free ≡ vec_capacity self.old.free }
    {
        match self.free.pop() {
            Some(number) => number,
            None => {
                let number = self.drawn;
                self.drawn = number + 1;
                number
            }
        }
    }

    pub(crate) fn give_back(&mut self, number: u32)
        requires { length self.old.free.items < vec_capacity self.old.free }
        ensures numbers { numbers_view self.new ≡ given_back number (numbers_view self.old) }
        ensures capacity { vec_capacity self.new.free ≡ vec_capacity self.old.free }
    {
        let _free = self.free.as_slice();
        self.free.push_reserved(number);
    }

    /// So many numbers drawn and none free, with room for all of them to be given back.
    pub(crate) fn of(alloc: Global, drawn: u32) -> Result<Numbers, NoMemory>
        ensures numbers { IfOk result (λ numbers. numbers_view numbers ≡ record { free = []; drawn = drawn }) }
        ensures room { IfOk result (λ numbers. drawn ≤ vec_capacity numbers.free) }
    {
        let free = Vec::with_capacity(alloc, drawn as usize)?;
        Ok(Numbers { free, drawn })
    }
}
