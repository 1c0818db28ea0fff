ghost use Rattle.std.specs.Prelude.{◌≡◌, ◌+◌, ◌<◌, not, length, is_ok, take, if◌then◌else◌, Some, None};
ghost use Rattle.lines.specs.Pages.{blank_page, full, page};
ghost use Rattle.lines.specs.Writes.{Writes, with_line};

// A lent list, and how many of its lines are written. It is no `Vec`: the caller lends fixed memory, and reads it afterwards.
//
// A library's call that takes a `&mut Lines` promises that it is still the same list that is lent: only by that clause does
// the caller's borrow end at what the list holds. So there is no model of it, which would leave out what the clause names.
#[derive(Drop)]
pub struct Lines<'a, T> {
    lines: &'a mut [T],
    used: usize,
}

impl<'a, T: Copy> Lines<'a, T> {
    // A list of which no line is written.
    pub fn new(lines: &'a mut [T]) -> Lines<'a, T>
        ensures page { page result ≡ blank_page lines.old }
        ensures same { result.lines.ghost_name ≡ lines.entry.ghost_name }
    {
        Lines { lines, used: 0 }
    }

    // How many lines are written.
    pub fn used(&self) -> usize
        ensures { result ≡ (page self.now).used }
    {
        self.used
    }

    // The lines that are written.
    pub fn written(&self) -> &[T]
        ensures { result.now ≡ take (page self.now).used (page self.now).lines }
    {
        &self.lines[..self.used.min(self.lines.len())]
    }

    // Whether a line is free.
    pub fn has_room(&self) -> bool
        ensures { result ≡ not (full (page self.now)) }
    {
        self.used < self.lines.len()
    }

    // The place of the next line, counted from 1, if one is free.
    pub fn next_place(&self) -> Option<usize>
        ensures { result ≡ (if full (page self.now) then None else Some ((page self.now).used + 1)) }
    {
        if self.used >= self.lines.len() {
            return None;
        }
        Some(self.used + 1)
    }

    // Writes the next line, or hands it back where none is free.
    pub fn write(&mut self, line: T) -> Result<(), T>
        ensures line { Writes self.old line result self.new }
        ensures room { is_ok result ≡ not (full (page self.old)) }
        ensures same { self.new.lines.ghost_name ≡ self.old.lines.ghost_name }
    {
        if !self.has_room() {
            return Err(line);
        }
        self.put(line);
        Ok(())
    }

    // Writes the next line, which is free.
    fn put(&mut self, line: T)
        requires { (page self.old).used < length (page self.old).lines }
        ensures page { page self.new ≡ with_line (page self.old) line }
        ensures same { self.new.lines.ghost_name ≡ self.old.lines.ghost_name }
    {
        self.lines[self.used] = line;
        self.used += 1;
    }
}
