//! The worker of the keyboard or of the mouse.

ghost use Rattle.std.specs.Prelude.{◌≡◌, ℕ, ◌<◌, true, false, length, map, take, MatchBool, None, Some};
ghost use Rattle.sam_queue.specs.Views.{new_post};
ghost use Rattle.sam_ends.specs.Gates.{LetOn, UserKeptOut};
ghost use Rattle.sam_ends.specs.WorkerEnds.{UserTold};
ghost use Rattle.sam_ends.specs.declared.input.Input.TheVariants.{User};

use sam_ends::{Gate, Input, Stop, UserEnd};
use sam_queue::Post;
use sam_term::event::UserEvent;
use std::sync::Wait;

/// Sends the events in order to the terminal, closes the post, and returns the worker's end. `worker` is 0 for the keyboard and 1 for the
/// mouse. It waits while the line is full.
///
/// If the end's `stop` is `None`, all events were sent. If it is `Gate`, the gate refused the worker: at its beginning, and then nothing
/// was sent, or on its way, and then only the first events were.
pub fn send_events<'q, R: Wait, G: Gate>(
    rt: &R,
    gate: &G,
    worker: usize,
    events: Vec<UserEvent>,
    mut post: Post<'q, Input>,
) -> UserEnd<'q>
    requires worker { worker < 5 }
    requires post { post ≡ new_post post.line worker }
    ensures told { UserTold worker events.items post.entry.line result }
    ensures begins { result.passed ≡ false → G.may_refuse gate.now worker }
    ensures kept_out { result.passed ≡ false → UserKeptOut result }
    ensures way { result.stop ≡ Some Stop.Gate → G.may_refuse gate.now worker }
    ensures let_in { result.passed ≡ true → G.must_refuse gate.now worker None → ⊥ }
    ensures let_on { LetOn (G.must_refuse gate.now worker) 0 (length result.post.put) }
{
    if !gate.pass(worker) {
        post.close(rt);
        return UserEnd {
            post,
            passed: false,
            stop: Some(Stop::Gate),
        };
    }
    let sent_all = put_events(rt, gate, worker, events, &mut post);
    post.close(rt);
    UserEnd {
        post,
        passed: true,
        stop: if sent_all { None } else { Some(Stop::Gate) },
    }
}

/// Sends the events in order for as long as the gate lets the worker go on. Returns whether it sent them all.
fn put_events<R: Wait, G: Gate>(
    rt: &R,
    gate: &G,
    worker: usize,
    events: Vec<UserEvent>,
    post: &mut Post<Input>,
) -> bool
    requires worker { worker < 5 }
    requires post { post.old ≡ new_post post.old.line worker }
    ensures some { (many : ℕ) × (post.new ≡ record post.old { put = map User (take many events.items) })
        × MatchBool result (many ≡ length events.items) (G.may_refuse gate.now worker) }
    ensures let_on { LetOn (G.must_refuse gate.now worker) 0 (length post.new.put) }
{
    let mut handled: u64 = 0;
    for event in events {
        if !gate.go_on(worker, handled) {
            return false;
        }
        if post.send(rt, Input::User(event)).is_err() {
            unreachable!()
        }
        handled = handled.saturating_add(1);
    }
    true
}
