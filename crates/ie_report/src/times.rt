// How often each entry was taken.
ghost use Rattle.std.specs.Prelude.{◌≡◌, ◌+◌, ◌<◌, replicate, slice_index, slice_set};

// A table by position: a map would ask for memory.
#[derive(Clone, Copy)]
pub struct TimesTaken {
    times: [u8; 64],
}

impl TimesTaken {
    pub(crate) fn none() -> TimesTaken
        ensures { result.times ≡ replicate 64 0 }
    {
        TimesTaken { times: [0; 64] }
    }

    pub(crate) fn of(&self, position: usize) -> u8
        ensures { result ≡ slice_index self.now.times position }
    {
        self.times.get(position).copied().unwrap_or_default()
    }

    pub(crate) fn add(&mut self, position: usize)
        requires { slice_index self.old.times position < 255 }
        ensures { self.new.times ≡ slice_set self.old.times position (slice_index self.old.times position + 1) }
    {
        // Not `get_mut`: after a write through it a proof knows the table's length, and not its elements.
        if position < self.times.len() {
            self.times[position] += 1;
        }
    }
}
