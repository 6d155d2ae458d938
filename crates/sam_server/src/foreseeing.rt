//! What the next step of an endpoint has the program do.

ghost use Rattle.std.specs.Prelude.{◌≡◌, IfOk, option_map};
ghost use Rattle.std.specs.Str.{encode_utf8_all};
ghost use Rattle.sam_text.specs.Files.{file_at};
ghost use Rattle.sam_server.specs.Servers.{Close, close_of, effect_of, next_effect};
ghost use Rattle.sam_server.specs.Turns.{plain_effect};

use crate::effect::Effect;
use crate::utf8::utf8_of;
use sam_endpoint::HostEndpoint;
use sam_host::Host;
use sam_mesg::Tmesg;
use sam_text::{File, Files};
use std::alloc::{AllocError, Global};

/// Returns the effect that has name and text of a file that goes. Its only error is out of memory.
#[tactic(auto, using(crate::proofs::Heirs::whole_text))]
fn closing(alloc: Global, tag: u16, file: &File) -> Result<Effect, AllocError>
    ensures { IfOk result (λ effect.
        plain_effect effect ≡ Close tag (encode_utf8_all file.now.plain.name) (encode_utf8_all file.now.plain.text)) }
{
    let text = file.text();
    Ok(Effect::Close {
        tag,
        name: utf8_of(alloc, file.name().as_slice())?,
        text: utf8_of(alloc, text.slice(0, text.len()))?,
    })
}

/// Returns the effect of closing the file of this tag, if it is dirty. Its only error is out of memory.
fn foresee_close(alloc: Global, files: &Files, tag: u16) -> Result<Option<Effect>, AllocError>
    ensures { IfOk result (λ effect. option_map plain_effect effect ≡ close_of tag (file_at files.now.plain tag)) }
{
    match files.file(tag) {
        Some(file) if file.is_dirty() => Ok(Some(closing(alloc, tag, file)?)),
        _ => Ok(None),
    }
}

/// Returns what the host's answer to this message has the program do. Its only error is out of memory.
fn foresee_answer(alloc: Global, host: &Host, message: &Tmesg) -> Result<Option<Effect>, AllocError>
    ensures { IfOk result (λ effect. option_map plain_effect effect ≡ effect_of host.now message.now) }
{
    match message {
        Tmesg::Twrite(tag) => {
            if host.is_done() {
                Ok(None)
            } else {
                Ok(Some(Effect::Write(*tag)))
            }
        }
        Tmesg::Tclose(tag) => {
            if host.is_done() {
                Ok(None)
            } else {
                foresee_close(alloc, host.files(), *tag)
            }
        }
        _ => Ok(None),
    }
}

/// Returns what the next step of the endpoint has the program do, before the step: what it closes is gone behind it. Its only error is out
/// of memory.
pub(crate) fn foresee(alloc: Global, host: &HostEndpoint) -> Result<Option<Effect>, AllocError>
    ensures { IfOk result (λ effect. option_map plain_effect effect ≡ next_effect host.now) }
{
    if host.has_unwritten() {
        return Ok(None);
    }
    match host.next_message() {
        Some(message) => foresee_answer(alloc, host.host(), message),
        None => Ok(None),
    }
}
