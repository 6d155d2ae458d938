//! Lends what the user does by the lines of a script.

ghost use Rattle.std.specs.Prelude.{◌≡◌};
ghost use Rattle.sam_script.specs.Script.{keys_of, mouse_of};

use crate::line::Numbered;
use sam_term::event::UserEvent;
use std::marker::Model;

/// The events of the `k` lines of a script that were not given yet, in order. It lends them.
/// [`Script::keys`](crate::Script::keys) makes it.
#[derive(Drop)]
pub struct Keys<'a> {
    /// The lines that were not looked at yet.
    lines: &'a [Numbered],
}

impl<'a> Model for Keys<'a> {
    ghost use Rattle.std.specs.Prelude.{List};
    ghost use Rattle.sam_term.specs.declared.event.UserEvent.{UserEvent};
    ghost use Rattle.sam_script.specs.Script.{keys_of};

    ghost Value = { List UserEvent };

    ghost view = { λ a. keys_of a.lines.now };
}

impl<'a> Keys<'a> {
    /// Returns the events of the `k` lines among these.
    pub(crate) fn of(lines: &'a [Numbered]) -> Keys<'a>
        ensures { result ≡ keys_of lines.now }
    {
        Keys { lines }
    }
}

impl<'a> Iterator for Keys<'a> {
    ghost use Rattle.std.specs.Iterator.{item_count, YieldsFirstRef};

    type Item = &'a UserEvent;

    ghost next_gives = { YieldsFirstRef (λ events. events) };

    ghost remaining = { item_count (λ events. events) };

    fn next(&mut self) -> Option<&'a UserEvent> {
        while let Some((numbered, later)) = self.lines.split_first() {
            self.lines = later;
            if let Some(event) = numbered.line.key() {
                return Some(event);
            }
        }
        None
    }
}

/// The events of the `m` lines of a script that were not given yet, in order. It lends them.
/// [`Script::mouse`](crate::Script::mouse) makes it.
#[derive(Drop)]
pub struct Clicks<'a> {
    /// The lines that were not looked at yet.
    lines: &'a [Numbered],
}

impl<'a> Model for Clicks<'a> {
    ghost use Rattle.std.specs.Prelude.{List};
    ghost use Rattle.sam_term.specs.declared.event.UserEvent.{UserEvent};
    ghost use Rattle.sam_script.specs.Script.{mouse_of};

    ghost Value = { List UserEvent };

    ghost view = { λ a. mouse_of a.lines.now };
}

impl<'a> Clicks<'a> {
    /// Returns the events of the `m` lines among these.
    pub(crate) fn of(lines: &'a [Numbered]) -> Clicks<'a>
        ensures { result ≡ mouse_of lines.now }
    {
        Clicks { lines }
    }
}

impl<'a> Iterator for Clicks<'a> {
    ghost use Rattle.std.specs.Iterator.{item_count, YieldsFirstRef};

    type Item = &'a UserEvent;

    ghost next_gives = { YieldsFirstRef (λ events. events) };

    ghost remaining = { item_count (λ events. events) };

    fn next(&mut self) -> Option<&'a UserEvent> {
        while let Some((numbered, later)) = self.lines.split_first() {
            self.lines = later;
            if let Some(event) = numbered.line.click() {
                return Some(event);
            }
        }
        None
    }
}
