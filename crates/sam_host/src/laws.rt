//! Laws of what the host answers, for readers and for the crates above. They speak of the definition `answer`, which `Host::handle`
//! computes. Each function does nothing: its clause is the law.

ghost use Rattle.sam_host.specs.Laws.{AddsGiven, StartsSound, StaysSound, FramesFit, AnswersAreCounted, IsSilentWhereDone};
ghost use Rattle.sam_host.specs.Marking.{MarksKeepSound};

/// Says that a host to which files are added one by one is the host that is made with all of them.
#[tactic(auto, using(crate::proofs::GivenLaws::adds_given))]
pub fn files_can_be_added()
    ensures { AddsGiven }
{}

/// Says that a host which is made with names and texts within their limits is sound: its texts and names are within their limits, each dot
/// is a range of its text, and its version is 1 or 2.
#[tactic(auto, using(crate::proofs::SoundLaws::starts_sound))]
pub fn hosts_start_sound()
    ensures { StartsSound }
{}

/// Says that a sound host is sound after every answer: texts, names and dots stay within their limits, and the version is 1 or 2.
#[tactic(auto, using(crate::proofs::SoundLaws::stays_sound))]
pub fn hosts_stay_sound()
    ensures { StaysSound }
{}

/// Says that a sound host of which a file was marked as dirty is sound.
pub fn marks_keep_hosts_sound()
    ensures { MarksKeepSound }
{}

/// Says that each frame which a sound host answers fits in the version at its place of the stream, and in version 2.
#[tactic(auto, using(crate::proofs::SoundLaws::frames_fit))]
pub fn frames_fit_in_place()
    ensures { FramesFit }
{}

/// Says that each answer adds one to the count of messages, and that its frames carry the new count.
#[tactic(auto, using(crate::proofs::SoundLaws::answers_are_counted))]
pub fn answers_are_counted()
    ensures { AnswersAreCounted }
{}

/// Says that a host which is done answers no frame, and changes nothing but its count, as long as that is not full.
#[tactic(auto, using(crate::proofs::SoundLaws::is_silent_where_done))]
pub fn a_done_host_is_silent()
    ensures { IsSilentWhereDone }
{}
