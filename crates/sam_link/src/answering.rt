//! How an end takes the other side's hello.

ghost use Rattle.std.specs.Prelude.{◌≡◌};
ghost use Rattle.sam_link.specs.End.{Answers, Welcomes, is_call, is_resume, refusal_of, welcome_count, welcome_fault, welcome_refusal};

use crate::fault::{AnswerFault, WelcomeFault};
use crate::hello::{Hello, Refusal, What};
use crate::link::{Link, same_id};
use crate::phase::{Phase, Role};

/// Returns whether a terminal says so.
fn is_call(what: What) -> bool
    ensures { result ≡ is_call what }
{
    match what {
        What::Begin => true,
        What::Resume => true,
        What::TakeOver => true,
        What::Welcome => false,
        What::Refused(_) => false,
    }
}

/// Returns whether a session is to go on.
fn is_resume(what: What) -> bool
    ensures { result ≡ is_resume what }
{
    match what {
        What::Resume => true,
        _ => false,
    }
}

impl Link {
    /// Returns why a host refuses the hello, if it does.
    fn refusal_of(&self, hello: &Hello) -> Option<Refusal>
        ensures { result ≡ refusal_of self.now hello.now }
    {
        if !is_call(hello.what) {
            return Some(Refusal::BadHello);
        }
        if is_resume(hello.what) && !self.is_known() {
            return Some(Refusal::NoSession);
        }
        if !same_id(self.id(), hello.id) {
            return Some(Refusal::OtherSession);
        }
        if hello.attempt <= self.attempt() {
            return Some(Refusal::OldAttempt);
        }
        if !self.may_have(hello.received) {
            return Some(Refusal::WrongCount);
        }
        None
    }

    /// The host takes the connection of this hello, and the one before is over. Errors: `WrongRole`; or `Refused`, in the order
    /// `BadHello`, `NoSession`, `OtherSession`, `OldAttempt`, `WrongCount`.
    pub fn answer(&mut self, hello: &Hello) -> Result<(), AnswerFault>
        ensures { Answers self.old hello.now result self.new }
    {
        match self.role() {
            Role::Terminal => return Err(AnswerFault::WrongRole),
            Role::Host => {}
        }
        if let Some(why) = self.refusal_of(hello) {
            return Err(AnswerFault::Refused(why));
        }
        self.take_call(hello.attempt, hello.received);
        Ok(())
    }

    /// Returns whether a host may have got so many bytes before this connection.
    fn welcome_count(&self, count: u64) -> bool
        ensures { result ≡ welcome_count self.now count }
    {
        if self.attempt() == 1 {
            count == 0
        } else {
            self.may_have(count)
        }
    }

    /// Returns why a terminal does not take a welcome, if it does not.
    fn welcome_refusal(&self, hello: &Hello) -> Option<WelcomeFault>
        ensures { result ≡ welcome_refusal self.now hello.now }
    {
        if !same_id(self.id(), hello.id) {
            return Some(WelcomeFault::Here(Refusal::OtherSession));
        }
        if hello.attempt != self.attempt() {
            return Some(WelcomeFault::Here(Refusal::OldAttempt));
        }
        if !self.welcome_count(hello.received) {
            return Some(WelcomeFault::Here(Refusal::WrongCount));
        }
        None
    }

    /// Returns why a terminal does not take the hello, if it does not.
    fn welcome_fault(&self, hello: &Hello) -> Option<WelcomeFault>
        ensures { result ≡ welcome_fault self.now hello.now }
    {
        match self.phase() {
            Phase::Down => return Some(WelcomeFault::NotOpen),
            Phase::Open => return Some(WelcomeFault::NotOpen),
            Phase::Asking => {}
        }
        match hello.what {
            What::Refused(why) => Some(WelcomeFault::ByHost(why)),
            What::Welcome => self.welcome_refusal(hello),
            What::Begin => Some(WelcomeFault::Here(Refusal::BadHello)),
            What::Resume => Some(WelcomeFault::Here(Refusal::BadHello)),
            What::TakeOver => Some(WelcomeFault::Here(Refusal::BadHello)),
        }
    }

    /// The terminal takes the host's hello. Errors, in this order: `WrongRole`; `NotOpen`; `ByHost` with the host's reason; or `Here`, in
    /// the order `BadHello`, `OtherSession`, `OldAttempt`, `WrongCount`.
    pub fn welcomed(&mut self, hello: &Hello) -> Result<(), WelcomeFault>
        ensures { Welcomes self.old hello.now result self.new }
    {
        match self.role() {
            Role::Host => return Err(WelcomeFault::WrongRole),
            Role::Terminal => {}
        }
        if let Some(fault) = self.welcome_fault(hello) {
            return Err(fault);
        }
        self.take_welcome(hello.received);
        Ok(())
    }
}
