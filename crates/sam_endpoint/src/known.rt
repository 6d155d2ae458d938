//! What is known of messages and frames because they are values of their types.

ghost use Rattle.std.specs.Prelude.{option_to_list};
ghost use Rattle.sam_frame.specs.Direction.{host, terminal};
ghost use Rattle.sam_frame.specs.Stream.{CanEncode};
ghost use Rattle.sam_endpoint.specs.Streams.{FitFrames, FitMessages};

use sam_mesg::{HFrame, Tmesg};

/// Reads off each frame that fits what is known of it: that it is a value of its type. It does nothing else.
pub(crate) fn know_frames(frames: &[HFrame])
    requires { CanEncode host frames.now }
    ensures { FitFrames frames.now }
{
    for frame in frames {
        frame.facts();
    }
}

/// Reads off a frame that fits, if there is one, what is known of it: that it is a value of its type. It does nothing else.
pub(crate) fn know_frame(frame: &Option<HFrame>)
    requires { CanEncode host (option_to_list frame.now) }
    ensures { FitFrames (option_to_list frame.now) }
{
    if let Some(frame) = frame {
        frame.facts();
    }
}

/// Reads off each message that fits what is known of it: that it is a value of its type. It does nothing else.
pub(crate) fn know_messages(messages: &[Tmesg])
    requires { CanEncode terminal messages.now }
    ensures { FitMessages messages.now }
{
    for message in messages {
        message.facts();
    }
}
