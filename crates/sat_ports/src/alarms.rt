ghost use Rattle.std.specs.Prelude.{◌≡◌, ◌≤◌, refl, IsTrue};
ghost use Rattle.std.proofs.Common.{◌∙◌};
ghost use Rattle.sat_ports.specs.Causes.{Rose};
ghost use Rattle.sat_ports.specs.Forms.{Polled, is_listed, after_poll};

use crate::Alarm;
use std::marker::Model;
use std::sync::atomic::{AtomicBool, Ordering};

/// Never asks for a stop.
#[derive(Clone, Copy, Debug)]
pub struct Silent;

impl Silent {
    pub fn new() -> Silent {
        Silent
    }
}

impl Alarm for Silent {
    ghost raises = { λ _. 0 };

    ghost kept = { λ _ _. Unit {0} };

    ghost kept_by_none = { λ _. tt };

    ghost kept_by_both = { λ _ _ _ _ _. tt };

    fn poll(&mut self) -> bool {
        false
    }
}

/// Asks for a stop at the polls that are listed by their numbers, from 0.
#[derive(Drop)]
pub struct AtPolls<'a> {
    polls: &'a [u64],
    calls: u64,
    raises: u64,
}

impl<'a> Model for AtPolls<'a> {
    ghost use Rattle.sat_ports.specs.Forms.{Polled};

    ghost Value = { Polled };

    ghost view = { λ a. record { polls = a.polls.now; calls = a.calls; raises = a.raises } };
}

impl<'a> AtPolls<'a> {
    /// An alarm that asks at these polls.
    pub fn new(polls: &'a [u64]) -> AtPolls<'a>
        ensures { result ≡ record { polls = polls.now; calls = 0; raises = 0 } }
    {
        AtPolls {
            polls,
            calls: 0,
            raises: 0,
        }
    }
}

impl<'a> Alarm for AtPolls<'a> {
    ghost raises = { λ a. a.raises };

    ghost kept = { λ old new. new.polls ≡ old.polls };

    ghost kept_by_none = { λ _. refl };

    ghost kept_by_both = { λ _ _ _ first second. second ∙ first };

    fn poll(&mut self) -> bool
        ensures later { self.old.raises ≤ self.new.raises }
        ensures rose { IsTrue result → Rose self.old.raises self.new.raises }
        ensures kept { self.new.polls ≡ self.old.polls }

        // It asks at exactly the listed polls, and what the next one depends on.
        ensures listed { result ≡ is_listed self.old.calls self.old.polls }
        ensures next { self.new ≡ after_poll result self.old }
    {
        let call = self.calls;
        self.calls = call.saturating_add(1);
        let is_listed = self.polls.contains(&call);
        if is_listed {
            self.raises = self.raises.saturating_add(1);
        }
        is_listed
    }
}

/// Asks for a stop where a word was set, and clears the word.
#[derive(Drop)]
pub struct Flag<'a> {
    word: &'a AtomicBool,
    raises: u64,
}

impl<'a> Model for Flag<'a> {
    ghost use Rattle.std.specs.Prelude.{ℕ};

    ghost Value = { ℕ };

    ghost view = { λ flag. flag.raises };
}

impl<'a> Flag<'a> {
    /// An alarm that looks at this word.
    pub fn new(word: &'a AtomicBool) -> Flag<'a>
        ensures { result ≡ 0 }
    {
        Flag { word, raises: 0 }
    }
}

impl<'a> Alarm for Flag<'a> {
    ghost raises = { λ flag. flag };

    ghost kept = { λ _ _. Unit {0} };

    ghost kept_by_none = { λ _. tt };

    ghost kept_by_both = { λ _ _ _ _ _. tt };

    fn poll(&mut self) -> bool {
        let was_set = self.word.swap(false, Ordering::SeqCst);
        if was_set {
            self.raises = self.raises.saturating_add(1);
        }
        was_set
    }
}

/// Asks for a stop: sets the word of a `Flag`. Another thread may call it at any time, and the next
/// poll of the flag answers true.
pub fn interrupt_asap(word: &AtomicBool) {
    word.store(true, Ordering::SeqCst);
}

#[cfg(test)]
mod tests {
    use super::*;

    #[test]
    fn silence_never_asks(rt: HostRuntime) {
        assert!(rt; !Silent::new().poll());
    }

    #[test]
    fn a_listed_poll_asks(rt: HostRuntime) {
        let mut alarm = AtPolls::new(&[0, 2]);
        assert!(rt; alarm.poll());
        assert!(rt; !alarm.poll());
        assert!(rt; alarm.poll());
        assert!(rt; !alarm.poll());
    }

    #[test]
    fn a_flag_asks_once_for_each_interrupt(rt: HostRuntime) {
        let word = AtomicBool::new(false);
        let mut alarm = Flag::new(&word);
        assert!(rt; !alarm.poll());
        interrupt_asap(&word);
        assert!(rt; alarm.poll());
        assert!(rt; !alarm.poll());
    }
}
