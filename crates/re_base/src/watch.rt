//! Whom a long search asks whether it is to end.
ghost use Rattle.std.specs.Prelude.{◌≡◌, ◌≤◌, ℕ, true};
ghost use Rattle.re_base.specs.Causes.{Rose};
ghost use Rattle.re_base.specs.Watches.{Answers, says_stop, after_answer, stopping_after};

use std::marker::Model;

/// Says when to stop. Contracts see how often it has said so: a count that never falls.
pub trait Watch {
    ghost stops: { Self → ℕ };

    /// Whether to stop. It says so only where the count rises, or stands at its last value.
    fn stop(&mut self) -> bool
        ensures later { stops self.old ≤ stops self.new }
        ensures rose { result ≡ true → Rose (stops self.old) (stops self.new) };
}

/// Never says stop.
#[derive(Clone, Copy, Debug, PartialEq, Eq)]
pub struct Never;

impl Watch for Never {
    ghost use Rattle.std.specs.Prelude.{false};

    ghost stops = { λ _. 0 };

    /// Always false.
    fn stop(&mut self) -> bool
        ensures later { 0 ≤ 0 }
        ensures rose { result ≡ true → Rose 0 0 }
        ensures never { result ≡ false }
    {
        false
    }
}

/// Says stop from a given question on. Each time that it does is counted, up to the last value of a
/// u64.
#[derive(Debug, Drop)]
pub struct StopAt {
    left: u32,
    stops: u64,
}

impl Model for StopAt {
    ghost Value = { Answers };

    ghost view = { λ watch. record { left = watch.left; stops = watch.stops } };
}

impl StopAt {
    /// A watch that answers false `after` times, and true from then on. Takes no memory.
    pub fn new(after: u32) -> StopAt
        ensures { result ≡ stopping_after after }
    {
        StopAt {
            left: after,
            stops: 0,
        }
    }
}

impl Watch for StopAt {
    ghost stops = { λ watch. watch.stops };

    /// False while answers of false are left, then true. Takes no memory.
    fn stop(&mut self) -> bool
        ensures later { self.old.stops ≤ self.new.stops }
        ensures rose { result ≡ true → Rose self.old.stops self.new.stops }
        ensures when { result ≡ says_stop self.old }
        ensures after { self.new ≡ after_answer self.old }
    {
        if self.left > 0 {
            self.left -= 1;
            return false;
        }
        self.stops = self.stops.saturating_add(1);
        true
    }
}
