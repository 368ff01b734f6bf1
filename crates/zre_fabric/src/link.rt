ghost use Rattle.std.specs.Prelude.{◌≡◌, true, IsNone, IfOk, IfSome};
ghost use Rattle.zre_fabric.specs.Dials.{is_standing, is_over as is_tried_out, due_at, stage_after_failure, heard};
ghost use Rattle.zre_fabric.specs.Origins.{IsOfLink};
ghost use Rattle.zre_fabric.specs.Pieces.{StepIsShort};

use crate::polled::Polled;
use crate::read_buffer::{ReadBuffer, StreamRead};
use crate::retry::Retry;
use mio::net::TcpStream;
use std::io::{ErrorKind, Write};
use zre_outside::Input;
use zre_values::{Endpoint, OutOfMemory};

/// What is still to be said of the last offer.
#[derive(Clone, Copy)]
enum Offered {
    Nothing,
    /// The socket took nothing. It is asked for more once it can be written to.
    Waits,
    /// So many octets were taken.
    Took(u64),
}

enum Connecting {
    Stands,
    Fails,
    GoesOn,
}

/// How far a link has come.
#[derive(Clone, Copy)]
enum Stage {
    /// It is dialed from this reading on.
    Waits(u64),
    /// It was dialed at this reading.
    Dials(u64),
    Stands,
    /// It couldn't be made.
    Failed,
}

/// What is due for a link that doesn't stand.
#[derive(Clone, Copy)]
pub(crate) enum Due {
    /// Nothing any more: it stands, or has failed.
    Nothing,
    /// Nothing yet, and it isn't being dialed.
    Waits,
    /// Nothing yet, and it is being dialed.
    Dials,
    /// It is to be dialed.
    Dial,
    /// The try has taken too long.
    Cut,
    /// It has been tried for long enough.
    GiveUp,
}

/// A link that this node opened, or tries to.
#[derive(Drop)]
pub(crate) struct TcpLink {
    stream: Option<TcpStream>,
    pub(crate) to: Endpoint,
    pub(crate) is_queued: bool,
    stage: Stage,
    retry: Retry,
    // It isn't tried again.
    is_once: bool,
    // A write failed. What the peer had sent before is still read.
    is_broken: bool,
    // The poll told of it since a read found nothing.
    is_ready: bool,
    // The last entry was a count, so that it is the replies' turn.
    has_counted: bool,
    offered: Offered,
    /// The octets that were read since a read found nothing.
    pub(crate) used: u64,
}

// When the system tells of a stream that connects: an error is what became of it, and it stands where it has a peer.
fn progress_of(stream: &TcpStream) -> Connecting {
    match stream.take_error() {
        Ok(None) => {}
        _ => return Connecting::Fails,
    }
    match stream.peer_addr() {
        Ok(_) => Connecting::Stands,
        Err(e) if e.kind() == ErrorKind::NotConnected => Connecting::GoesOn,
        Err(_) => Connecting::Fails,
    }
}

impl TcpLink {
    /// A link that is to be dialed from a reading on, once or until it stands.
    pub(crate) fn new(to: Endpoint, at: u64, due: u64, is_once: bool) -> Self
        // To whom, and how far.
        ensures to { result.to ≡ to }
        ensures stage { result.stage ≡ Stage.Waits due }
        ensures retry { (result.retry.begun ≡ at) × (result.retry.tries ≡ 0) }
        // What may go out.
        ensures once { result.is_once ≡ is_once }
        ensures offered { result.offered ≡ Offered.Nothing }
    {
        TcpLink {
            stream: None,
            to,
            is_queued: false,
            stage: Stage::Waits(due),
            retry: Retry::new(at),
            is_once,
            is_broken: false,
            is_ready: false,
            has_counted: false,
            offered: Offered::Nothing,
            used: 0,
        }
    }

    /// What is due now, where a try may take so many milliseconds.
    pub(crate) fn due(&self, at: u64, limit: u64) -> Due
        ensures { result ≡ due_at self.now.stage (is_tried_out self.now at) at limit }
    {
        let is_over = self.retry.is_over(at);
        match self.stage {
            Stage::Stands | Stage::Failed => Due::Nothing,
            Stage::Waits(_) | Stage::Dials(_) if is_over => Due::GiveUp,
            Stage::Waits(due) if due > at => Due::Waits,
            Stage::Waits(_) => Due::Dial,
            Stage::Dials(since) if at.saturating_sub(since) < limit => Due::Dials,
            Stage::Dials(_) => Due::Cut,
        }
    }

    /// A try has begun.
    pub(crate) fn dialed(&mut self, stream: TcpStream, at: u64)
        ensures stage { self.new.stage ≡ Stage.Dials at }
        ensures retry { (self.new.retry ≡ self.old.retry) × (self.new.to ≡ self.old.to) }
    {
        self.stream = Some(stream);
        self.is_ready = false;
        self.stage = Stage::Dials(at);
    }

    /// A try has failed. Another is due later, unless it is tried once. The result says whether the link has failed.
    pub(crate) fn failed(&mut self, at: u64, chance: u64) -> bool
        ensures once { result ≡ self.old.is_once }
        ensures stage { self.new.stage ≡ stage_after_failure self.old at chance }
        ensures to { self.new.to ≡ self.old.to }
    {
        self.stream = None;
        self.stage = if self.is_once {
            Stage::Failed
        } else {
            Stage::Waits(self.retry.failed(at, chance))
        };
        self.is_once
    }

    /// Whether it stands.
    pub(crate) fn stands(&self) -> bool
        ensures { result ≡ is_standing self.now.stage }
    {
        matches!(self.stage, Stage::Stands)
    }

    /// No more tries: the link has failed.
    pub(crate) fn give_up(&mut self)
        ensures { self.new.stage ≡ Stage.Failed }
    {
        self.stream = None;
        self.stage = Stage::Failed;
    }

    /// The poll told of it.
    pub(crate) fn hear(&mut self, is_writable: bool)
        ensures ready { self.new.is_ready ≡ true }
        ensures offered { self.new.offered ≡ heard self.old.offered is_writable }
        ensures stage { self.new.stage ≡ self.old.stage }
    {
        self.is_ready = true;
        if is_writable && matches!(self.offered, Offered::Waits) {
            self.offered = Offered::Took(0);
        }
    }

    /// Writes as much as the socket takes now, unless something is still to be said of an earlier offer. The result
    /// says whether the link has something to say at once.
    pub(crate) fn offer(&mut self, bytes: &[u8]) -> bool {
        let is_free = matches!(self.offered, Offered::Nothing);
        if bytes.is_empty() || !self.stands() || self.is_broken || !is_free {
            return false;
        }
        let Some(stream) = &mut self.stream else {
            return false;
        };
        match stream.write(bytes) {
            Ok(n) if n > 0 => self.offered = Offered::Took(n as u64),
            Err(e) if e.kind() == ErrorKind::WouldBlock => self.offered = Offered::Waits,
            _ => {
                self.is_broken = true;
                self.is_ready = true;
            }
        }
        !matches!(self.offered, Offered::Waits)
    }

    pub(crate) fn step(
        &mut self,
        link: u64,
        at: u64,
        chance: u64,
        buffer: &mut ReadBuffer,
    ) -> Result<Polled, OutOfMemory>
        ensures short { IfOk result (λ step. StepIsShort step) }
        ensures own { IfOk result (λ step. IsOfLink link step) }
    {
        if !self.stands() {
            return Ok(self.settle(link, at, chance));
        }
        if !self.has_counted {
            if let Some(step) = self.count(link) {
                return Ok(step);
            }
        }
        self.has_counted = false;
        match self.read(link, buffer)? {
            Polled::Rest => Ok(self.count(link).unwrap_or(Polled::Rest)),
            step => Ok(step),
        }
    }

    // Whether it stands by now.
    fn settle(&mut self, link: u64, at: u64, chance: u64) -> Polled
        ensures short { StepIsShort result }
        ensures own { IsOfLink link result }
    {
        if let Stage::Failed = self.stage {
            return Polled::Last(Input::Unlinked { link });
        }
        let Some(stream) = &self.stream else {
            return Polled::Rest;
        };
        if !self.is_ready {
            return Polled::Rest;
        }
        match progress_of(stream) {
            Connecting::Stands => {
                self.stage = Stage::Stands;
                return Polled::More(Input::Linked { link });
            }
            Connecting::Fails => {
                if self.failed(at, chance) {
                    return Polled::Last(Input::Unlinked { link });
                }
            }
            Connecting::GoesOn => self.is_ready = false,
        }
        Polled::Rest
    }

    fn count(&mut self, link: u64) -> Option<Polled>
        ensures short { IfSome result (λ step. StepIsShort step) }
        ensures own { IfSome result (λ step. IsOfLink link step) }
        ensures none { IsNone result → self.new ≡ self.old }
    {
        let Offered::Took(count) = self.offered else {
            return None;
        };
        self.offered = Offered::Nothing;
        self.has_counted = true;
        Some(Polled::More(Input::Took { link, count }))
    }

    fn read(&mut self, link: u64, buffer: &mut ReadBuffer) -> Result<Polled, OutOfMemory>
        ensures short { IfOk result (λ step. StepIsShort step) }
        ensures own { IfOk result (λ step. IsOfLink link step) }
    {
        let Some(stream) = &mut self.stream else {
            return Ok(Polled::Last(Input::Unlinked { link }));
        };
        if !self.is_ready {
            return Ok(Polled::Rest);
        }
        match buffer.read(stream)? {
            StreamRead::Octets(bytes) => Ok(Polled::More(Input::Reply { link, bytes })),
            StreamRead::Nothing if !self.is_broken => {
                self.is_ready = false;
                Ok(Polled::Rest)
            }
            _ => Ok(Polled::Last(Input::Unlinked { link })),
        }
    }
}
