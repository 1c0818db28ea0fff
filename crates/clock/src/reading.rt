ghost use Rattle.std.specs.Prelude.{◌≡◌, ℕ, ◌*◌, ◌<◌};
ghost use Rattle.clock.specs.StopClock.{limit};
ghost use Rattle.clock.specs.Turns.{onward, shown};

// What a clock shows. It counts nanoseconds, and begins again at 0 after so many: its turn.
pub trait Reading: Copy {
    ghost turn: { ℕ };

    // The count that a reading stands for.
    ghost count: { Self → ℕ };

    // What a clock with this start shows at a moment.
    fn at(start: u64, moment: u64) -> Self
        ensures { count result ≡ shown turn start moment };

    // The nanoseconds from an earlier reading to this one.
    fn since(self, earlier: Self) -> u64
        ensures { result ≡ onward turn (count earlier) (count self) };

    // A turn takes more than twice as long as all moments, so no later mark is taken for an earlier one.
    ghost long: { 2 * limit < turn };
}
