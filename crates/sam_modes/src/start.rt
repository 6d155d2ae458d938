//! The host that mode `bytes` begins with.

ghost use Rattle.std.specs.Prelude.{◌≡◌, ◌≤◌, IfOk, length};
ghost use Rattle.sam_runes.specs.Texts.{max_runes};
ghost use Rattle.sam_modes.specs.Start.{host_of};

use sam_host::fault::HostFault;
use sam_host::host::Host;
use sam_runes::{Runes, Text};
use std::alloc::Global;

/// Makes the host whose file 1 is named `file` and holds the text, which has at most `MAX_RUNES` runes. The error is out of memory.
#[tactic(auto, unfolding(crate::specs::Start::host_of))]
pub(crate) fn host_of_text(alloc: Global, text: &[char]) -> Result<Host, HostFault>
    requires { length text.now ≤ max_runes }
    ensures { IfOk result (λ h. h ≡ host_of text.now) }
{
    let name = Runes::from_slice(alloc, &['f', 'i', 'l', 'e'])?;
    let Ok(text) = Text::from_runes(alloc, text) else {
        return Err(HostFault::OutOfMemory);
    };
    let mut files = Vec::with_capacity(alloc, 1)?;
    files.push((name, text))?;
    Host::new(alloc, files)
}
