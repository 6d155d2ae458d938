//! What the user is to do, copied or moved out of a script.
ghost use Rattle.std.specs.Prelude.{◌≡◌, length, IfOk};
ghost use Rattle.sam_script.specs.Script.{keys_of, mouse_of};
ghost use Rattle.sam_session.specs.Moving.{HasRoomFor};

use sam_script::{Line, Numbered, Script};
use sam_term::event::UserEvent;
use std::alloc::{AllocError, Global};

/// What the user does at the keyboard, and what with the mouse, in order.
#[derive(Drop)]
pub struct Users {
    pub keys: Vec<UserEvent>,
    pub clicks: Vec<UserEvent>,
}

/// Copies the events out of the script, which stays. Its only error is out of memory.
pub fn copied_users(alloc: Global, script: &Script) -> Result<Users, AllocError>
    ensures keys { IfOk result (λ users. users.keys.items ≡ keys_of script.now.lines) }
    ensures clicks { IfOk result (λ users. users.clicks.items ≡ mouse_of script.now.lines) }
{
    let mut keys = Vec::new(alloc);
    for key in script.keys() {
        keys.push(key.copy(alloc)?)?;
    }
    let mut clicks = Vec::new(alloc);
    for click in script.mouse() {
        clicks.push(click.copy(alloc)?)?;
    }
    Ok(Users { keys, clicks })
}

/// Makes empty lists with room for the events of these lines. Its only error is out of memory.
pub fn room_for(alloc: Global, lines: &[Numbered]) -> Result<Users, AllocError>
    ensures { IfOk result (HasRoomFor lines.now) }
{
    let keys = Vec::with_capacity(alloc, count_keys(lines))?;
    let clicks = Vec::with_capacity(alloc, count_clicks(lines))?;
    Ok(Users { keys, clicks })
}

/// Returns how many of these lines are events of the keyboard.
fn count_keys(lines: &[Numbered]) -> usize
    ensures { result ≡ length (keys_of lines.now) }
{
    let mut count: usize = 0;
    for numbered in lines {
        if let Line::Key(_) = &numbered.line {
            count += 1;
        }
    }
    count
}

/// Returns how many of these lines are events of the mouse.
fn count_clicks(lines: &[Numbered]) -> usize
    ensures { result ≡ length (mouse_of lines.now) }
{
    let mut count: usize = 0;
    for numbered in lines {
        if let Line::Mouse(_) = &numbered.line {
            count += 1;
        }
    }
    count
}

/// Moves the events of these lines to the keyboard's list or to the mouse's, in order, and lets go of the other lines. The lists are
/// empty, and have room for them.
pub fn users_of(lines: Vec<Numbered>, room: Users) -> Users
    requires { HasRoomFor lines.items room }
    ensures keys { result.keys.items ≡ keys_of lines.items }
    ensures clicks { result.clicks.items ≡ mouse_of lines.items }
{
    let Users {
        mut keys,
        mut clicks,
    } = room;
    for numbered in lines {
        let Numbered { number: _, line } = numbered;
        match line {
            Line::Key(event) => keys.push_reserved(event),
            Line::Mouse(event) => clicks.push_reserved(event),
            Line::Add(_name, _text) => {}
            Line::Dirty(_tag) => {}
            Line::Act | Line::Flush | Line::Host | Line::Term | Line::Drain | Line::Show => {}
        }
    }
    Users { keys, clicks }
}
