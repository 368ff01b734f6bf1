//! The turns of a reader: each takes an octet of a greeting, an octet of a header, or octets of a body.

ghost use Rattle.std.specs.Prelude.{◌≡◌, ℕ, ◌+◌, ◌≤◌, ◌<◌, ◌≢◌, List, [], ◌∷◌, ◌++◌, length, take, sum_by, IfOk};
ghost use Rattle.std.specs.Prelude.{IfSome, IsSome, OnOk, IfErr, OnErr, Some, None, option_map, option_copied};
ghost use Rattle.std.specs.Prelude.{option_to_list, true};
ghost use Rattle.std.specs.Option.{ForSome};
ghost use Rattle.zre_zmtp.specs.Frame.{header_of, header_len as header_len_of};
ghost use Rattle.zre_zmtp.specs.Ready.{name as name_of, socket_type as socket_type_of, identity as identity_of};
ghost use Rattle.zre_zmtp.specs.Stream.{Want as WantValue, said as said_by, opened_by, body_fault};
ghost use Rattle.zre_zmtp.specs.Shown.{before_of, left_of, held, frame_item, frame_after, header_fault, Waits};
ghost use Rattle.zre_zmtp.specs.Shown.{Advances, RefusesAt, BeginsFrame, is_content as is_content_of};
ghost use Rattle.zre_zmtp.specs.Shown.{StandsAfter, NamesFault, room as room_of};
ghost use Rattle.zre_zmtp.specs.Reading.{Refuses};
ghost use Rattle.zre_zmtp.specs.Looks.{LooksOnce, IsPaid, IsPaidOnRefusal};

use crate::begun::{begin_frame, header_at};
use crate::command::{command_fault, identity, name, socket_type};
use crate::expected::Expected;
use crate::fault::{Fed, FeedFault, ZmtpFault, ZmtpWhy};
use crate::faults::{fault_of_header, fault_of_whole};
use crate::head::Head;
use crate::header::{Header, has_more, header_len, is_message, read_header};
use crate::item::{Item, Items, What, push_message};
use crate::looks::{Steps, Store};
use crate::partial::Partial;
use crate::progress::Progress;
use crate::want::Want;
use std::alloc::Global;
use std::mem;
use std::sync::ledger::Ledger;
use zre_values::{Frames, Octets, OutOfMemory};

// A frame whose header is whole: what that says, its octets, and what there is of the body.
#[derive(Drop)]
struct HeadedFrame {
    header: Header,
    head: Head,
    body: Store,
}

fn copy(alloc: Global, octets: Option<&[u8]>) -> Result<Option<Octets>, OutOfMemory>
    ensures { IfOk result (λ copied. copied ≡ option_copied octets.entry) }
{
    match octets {
        Some(octets) => Ok(Some(Octets::copy(alloc, octets)?)),
        None => Ok(None),
    }
}

// What READY says, by its body.
fn said_by_ready(alloc: Global, size: u64, body: &[u8]) -> Result<What, OutOfMemory>
    ensures { IfOk result (λ what. what ≡ What.Ready size (socket_type_of body.now) (identity_of body.now)) }
{
    let socket_type = copy(alloc, socket_type(body))?;
    let identity = copy(alloc, identity(body))?;
    Ok(What::Ready {
        size,
        socket_type,
        identity,
    })
}

// What a command after READY says, by its body.
fn said_by_command(alloc: Global, size: u64, body: Octets) -> Result<What, OutOfMemory>
    ensures { IfOk result (λ what. what ≡ What.Command size (name_of body) body) }
{
    let name = Octets::copy(alloc, name(body.as_slice()))?;
    Ok(What::Command { size, name, body })
}

/// The place after a part, if there is a number for it.
pub(crate) fn end_of(place: u64, header_len: usize, body_len: usize) -> Option<u64>
    ensures { IfSome result (λ end. end ≡ place + (header_len + body_len)) }
{
    place
        .checked_add(header_len as u64)?
        .checked_add(body_len as u64)
}

impl Progress {
    // How many octets the next turn takes at most.
    fn room(&self) -> u64
        ensures exact { result
            ≡ room_of self.now.expected self.now.partial.header self.now.partial.body }
        ensures some { 1 ≤ result }
    {
        match (self.expected, self.partial.header) {
            (Expected::Greeting, _) | (_, None) => 1,
            (_, Some(header)) => header.size - self.partial.body.len() as u64,
        }
    }

    // What a whole frame says. The message that it belongs to is kept or handed out.
    fn said(&mut self, header: Header, body: Octets) -> Result<Option<What>, OutOfMemory>
        requires { self.old.expected ≢ Expected.Greeting }
        // What the frame says.
        ensures says { IfOk result (λ what.
            what ≡ said_by self.old.expected self.old.opened header.flags header.size body) }
        // What is kept of an unfinished message.
        ensures opened { OnOk result
            (self.new.opened ≡ opened_by self.old.expected self.old.opened header.flags body) }
        ensures others { self.new ≡ record self.old { opened = self.new.opened } }
    {
        if self.expected == Expected::Ready {
            return Ok(Some(said_by_ready(self.alloc, header.size, body.as_slice())?));
        }
        if !is_message(header.flags) {
            return Ok(Some(said_by_command(self.alloc, header.size, body)?));
        }
        if has_more(header.flags) {
            self.opened.push(body)?;
            return Ok(None);
        }
        Ok(Some(What::Message(self.opened.finish(self.alloc, body)?)))
    }

    // The item that ends with a whole frame, and what is known after it. A place past the last one is OutOfMemory.
    fn finish_owned_frame(
        &mut self,
        want: &Want,
        header: Header,
        header_len: usize,
        body: Octets,
    ) -> Result<Option<Item>, FeedFault>
        requires { self.old.expected ≢ Expected.Greeting }
        // What the frame says.
        ensures says { IfOk result (λ item.
            item ≡ frame_item (before_of self.old) header body (header_len + length body)) }
        // What is known after it.
        ensures after { OnOk result
            (before_of self.new ≡ frame_after (before_of self.old) header body (header_len + length body)) }
        ensures partial { OnOk result (self.new.partial ≡ self.old.partial) }
        // A fault.
        ensures faultless { OnOk result
            (body_fault want.now (before_of self.old) header.flags body ≡ None) }
        ensures refused { IfErr result (λ e. Refuses e
            (option_map (λ why. record { why = why; place = self.old.place })
            (body_fault want.now (before_of self.old) header.flags body))
            (Unit {0})) }
    {
        if let Some(why) = self.fault_of_body(want, header.flags, body.as_slice()) {
            let place = self.place;
            drop(body);
            return Err(FeedFault::Zmtp(ZmtpFault { why, place }));
        }
        let Some(end) = end_of(self.place, header_len, body.len()) else {
            drop(body);
            return Err(FeedFault::OutOfMemory);
        };
        let start = if self.expected == Expected::Traffic && is_message(header.flags) {
            self.start
        } else {
            self.place
        };
        let what = self.said(header, body)?;
        self.expected = Expected::Traffic;
        self.place = end;
        if self.opened.len() == 0 {
            self.start = end;
        }
        Ok(what.map(|what| Item { start, end, what }))
    }

    fn fault_of_body(&self, want: &Want, flags: u8, body: &[u8]) -> Option<ZmtpWhy>
        ensures { result ≡ body_fault want.now (before_of self.now) flags body.now }
    {
        if is_message(flags) {
            None
        } else {
            command_fault(want, self.expected, body)
        }
    }

    // A frame whose header is whole, where nothing else is kept: it is kept until it is whole, and then the item that
    // ends with it is appended.
    fn take_frame(&mut self, want: &Want, frame: HeadedFrame, out: &mut Items) -> Fed
        // What a caller knows.
        requires frame { self.old.expected ≢ Expected.Greeting }
        requires no_head { self.old.partial.head ≡ [] }
        requires no_body { self.old.partial.body ≡ [] }
        requires header { header_of frame.head ≡ Some frame.header }
        requires within { length frame.head ≤ header_len_of frame.head }
        requires room { length frame.body ≤ frame.header.size }
        // What the octets add.
        ensures ok { header_fault (before_of self.old) frame.head ≡ None →
            OnOk result (Advances want.now (before_of self.old) (frame.head ++ frame.body) out.old out.new
            (before_of self.new) (left_of self.new)) }
        // What a refusal tells, and what it leaves.
        ensures refused { header_fault (before_of self.old) frame.head ≡ None →
            IfErr result (λ e.
            RefusesAt e want.now (before_of self.old) (frame.head ++ frame.body) out.old out.new) }
        // How many octets are kept.
        ensures held { OnOk result (held self.new
            ≤ sum_by length self.old.opened + (length frame.head + length frame.body)) }
        ensures held_whole { length frame.body ≡ frame.header.size →
            OnOk result (held self.new ≤ sum_by length self.old.opened + length frame.body) }
    {
        let HeadedFrame { header, head, body } = frame;
        if (body.len() as u64) < header.size {
            let header = Some(header);
            self.partial = Partial { head, header, body };
            return Ok(());
        }
        if let Some(item) = self.finish_owned_frame(want, header, head.len(), body.finish())? {
            out.push(item)?;
        }
        Ok(())
    }

    // What there is of a header, in which nothing is wrong: it is kept, unless a frame without a body ends with it.
    fn begin_body(&mut self, want: &Want, head: Head, out: &mut Items) -> Fed
        // What a caller knows.
        requires frame { self.old.expected ≢ Expected.Greeting }
        requires no_head { self.old.partial.head ≡ [] }
        requires no_body { self.old.partial.body ≡ [] }
        requires within { length head ≤ header_len_of head }
        requires faultless { header_fault (before_of self.old) head ≡ None }
        // What the octets add.
        ensures ok { OnOk result (Advances want.now (before_of self.old) head out.old out.new
            (before_of self.new) (left_of self.new)) }
        // What a refusal tells, and what it leaves.
        ensures refused { IfErr result (λ e.
            RefusesAt e want.now (before_of self.old) head out.old out.new) }
        // How many octets are kept.
        ensures held { OnOk result (held self.new ≤ sum_by length self.old.opened + length head) }
    {
        let body = Store::new(self.alloc);
        let Some(header) = read_header(head.as_slice()) else {
            let header = None;
            self.partial = Partial { head, header, body };
            return Ok(());
        };
        self.take_frame(want, HeadedFrame { header, head, body }, out)
    }

    // One octet more of a header. A frame without a body ends with it.
    fn take_header(&mut self, want: &Want, octet: u8, out: &mut Items) -> Fed
        // What a caller knows.
        requires frame { self.old.expected ≢ Expected.Greeting }
        requires header { self.old.partial.header ≡ None }
        // What the octets add.
        ensures ok { StandsAfter result want.now self.old self.new (octet ∷ []) out.old out.new }
        // What a refusal tells, and what it leaves.
        ensures refused { NamesFault result want.now self.old (octet ∷ []) out.old out.new }
        // How many octets are kept.
        ensures held { OnOk result (held self.new ≤ held self.old + 1) }
    {
        let none = Partial::new(self.alloc);
        let Partial { mut head, .. } = mem::replace(&mut self.partial, none);
        head.push(octet);
        if let Some(why) = fault_of_header(self, head.as_slice()) {
            let place = self.place;
            return Err(FeedFault::Zmtp(ZmtpFault { why, place }));
        }
        self.begin_body(want, head, out)
    }

    // Octets more of a body, and no more than are missing.
    fn take_body<L: Ledger>(
        &mut self,
        want: &Want,
        more: &[u8],
        out: &mut Items,
        steps: &mut Steps<L>,
    ) -> Fed
        // What a caller knows.
        requires frame { self.old.expected ≢ Expected.Greeting }
        requires header { IsSome self.old.partial.header }
        requires within { ForSome self.old.partial.header (λ header.
            length self.old.partial.body + length more.now ≤ header.size) }
        // What the octets add.
        ensures ok { StandsAfter result want.now self.old self.new more.now out.old out.new }
        // What a refusal tells, and what it leaves.
        ensures refused { NamesFault result want.now self.old more.now out.old out.new }
        // How many octets are looked at.
        ensures looks { LooksOnce steps.old steps.new (held self.old) (held self.new) (length more.now) result }
    {
        let none = Partial::new(self.alloc);
        let Partial {
            head,
            header,
            mut body,
        } = mem::replace(&mut self.partial, none);
        let Some(header) = header else {
            unreachable!();
        };
        body.add(more, steps)?;
        self.take_frame(want, HeadedFrame { header, head, body }, out)
    }

    // Whether a frame with this header belongs to a message after READY.
    fn is_content(&self, header: Header) -> bool
        ensures { result ≡ is_content_of self.now.expected header.flags }
    {
        match self.expected {
            Expected::Traffic => is_message(header.flags),
            Expected::Greeting | Expected::Ready => false,
        }
    }

    // The last frame of a message. Most messages have no other, and then its body is copied to where the item lies. The
    // copy is a look at each octet.
    fn push_whole_message<L: Ledger>(
        &mut self,
        end: u64,
        body: &[u8],
        out: &mut Items,
        steps: &mut Steps<L>,
    ) -> Result<(), OutOfMemory>
        ensures given { OnOk result (out.new ≡ out.old
            ++ record {
              start = self.old.start;
              end = end;
              what = What.Message (self.old.opened ++ body.now ∷ []);
            } ∷ []) }
        ensures others { OnOk result (self.new ≡ record self.old { opened = [] }) }
        ensures looks { OnOk result (steps.new ≡ steps.old + length body.now) }
        ensures looks_most { steps.new ≤ steps.old + length body.now }
    {
        let start = self.start;
        if self.opened.len() == 0 {
            let what = What::Message(Frames::of(self.alloc, Octets::new(self.alloc)));
            return push_message(Item { start, end, what }, body, out, steps);
        }
        let what = What::Message(self.opened.close(self.alloc, body, steps)?);
        out.push(Item { start, end, what })
    }

    // A whole frame of a message after READY. Its body is copied once.
    fn finish_lent_content<L: Ledger>(
        &mut self,
        header: Header,
        header_len: usize,
        body: &[u8],
        out: &mut Items,
        steps: &mut Steps<L>,
    ) -> Fed
        requires { is_content_of self.old.expected header.flags ≡ true }
        // What the frame says.
        ensures given { OnOk result (out.new ≡ out.old
            ++ option_to_list (frame_item (before_of self.old) header body.now (header_len + length body.now))) }
        // What is known after it.
        ensures after { OnOk result
            (before_of self.new ≡ frame_after (before_of self.old) header body.now (header_len + length body.now)) }
        ensures partial { OnOk result (self.new.partial ≡ self.old.partial) }
        // A refusal.
        ensures err { IfErr result (λ e. e ≡ FeedFault.OutOfMemory) }
        ensures looks { OnOk result (steps.new ≡ steps.old + length body.now) }
        ensures looks_most { steps.new ≤ steps.old + length body.now }
    {
        let Some(end) = end_of(self.place, header_len, body.len()) else {
            return Err(FeedFault::OutOfMemory);
        };
        if has_more(header.flags) {
            self.opened.push_copy(self.alloc, body, steps)?;
            self.place = end;
            return Ok(());
        }
        self.push_whole_message(end, body, out, steps)?;
        self.place = end;
        self.start = end;
        Ok(())
    }

    // A whole frame from the octets that it begins. It gives how many octets that frame has. Its body is copied once.
    fn take_whole<L: Ledger>(
        &mut self,
        want: &Want,
        header: Header,
        octets: &[u8],
        out: &mut Items,
        steps: &mut Steps<L>,
    ) -> Result<usize, FeedFault>
        requires { BeginsFrame self.old header octets.now }
        // What the octets add.
        ensures ok { IfOk result (λ len. Advances want.now (before_of self.old) (take len octets.now) out.old out.new
            (before_of self.new) (left_of self.new)) }
        // What a refusal tells, and what it leaves.
        ensures refused { IfErr result (λ e.
            RefusesAt e want.now (before_of self.old) octets.now out.old out.new) }
        // How many octets are taken and kept.
        ensures within { IfOk result (λ len. header.size < len × len ≤ length octets.now) }
        ensures held { OnOk result (held self.new ≤ held self.old + header.size) }
        ensures looks { OnOk result (steps.new ≡ steps.old + header.size) }
        ensures looks_most { steps.new ≤ steps.old + header.size }
    {
        let (head, later) = octets.split_at(header_len(octets));
        if let Some(why) = fault_of_whole(self, header) {
            let place = self.place;
            return Err(FeedFault::Zmtp(ZmtpFault { why, place }));
        }
        let (body, _) = later.split_at(header.size as usize);
        let len = head.len() + body.len();
        if self.is_content(header) {
            self.finish_lent_content(header, head.len(), body, out, steps)?;
            return Ok(len);
        }
        let head = Head::of(head);
        let mut copied = Store::new(self.alloc);
        copied.add(body, steps)?;
        let body = copied;
        self.take_frame(want, HeadedFrame { header, head, body }, out)?;
        Ok(len)
    }

    // Takes octets of the part that comes next, no more than there is room for.
    fn take_part<L: Ledger>(
        &mut self,
        want: &Want,
        octets: &[u8],
        out: &mut Items,
        steps: &mut Steps<L>,
    ) -> Fed
        // What a caller knows.
        requires some { 0 < length octets.now }
        requires room { length octets.now
            ≤ room_of self.old.expected self.old.partial.header self.old.partial.body }
        // What the octets add.
        ensures ok { StandsAfter result want.now self.old self.new octets.now out.old out.new }
        // What a refusal tells, and what it leaves.
        ensures refused { NamesFault result want.now self.old octets.now out.old out.new }
        // How many octets are looked at.
        ensures looks { LooksOnce steps.old steps.new (held self.old) (held self.new) (length octets.now) result }
    {
        match (self.expected, self.partial.header) {
            (Expected::Greeting, _) => self.take_greeting(octets[0], out, steps),
            (_, None) => self.take_header(want, octets[0], out),
            (_, Some(_)) => self.take_body(want, octets, out, steps),
        }
    }

    /// Takes octets from the front of these: a whole frame, where one begins there, or all of one that isn't whole but
    /// has its header, and else octets of the part that isn't whole. It gives how many it took.
    pub(crate) fn take_turn<L: Ledger>(
        &mut self,
        want: &Want,
        octets: &[u8],
        out: &mut Items,
        steps: &mut Steps<L>,
    ) -> Result<usize, FeedFault>
        requires { 0 < length octets.now }
        // What the octets add.
        ensures ok { Waits want.now (before_of self.old) (left_of self.old) →
            IfOk result (λ len. Advances want.now (before_of self.old) (left_of self.old ++ take len octets.now)
            out.old out.new (before_of self.new) (left_of self.new)) }
        // What a refusal tells, and what it leaves.
        ensures refused { NamesFault result want.now self.old octets.now out.old out.new }
        // How many octets are taken and looked at.
        ensures within { IfOk result (λ len. 0 < len × len ≤ length octets.now) }
        ensures once { IfOk result (λ len. steps.new ≤ steps.old + len) }
        ensures refused_once { OnErr result (steps.new ≤ steps.old + length octets.now) }
        ensures looks { IfOk result (λ len. IsPaid steps.old steps.new (held self.old) (held self.new) len) }
        ensures refused_looks { OnErr result (IsPaidOnRefusal steps.old steps.new (held self.old) (length octets.now)) }
    {
        let Some(header) = header_at(self, octets) else {
            let len = self.room().min(octets.len() as u64) as usize;
            let (front, _) = octets.split_at(len);
            self.take_part(want, front, out, steps)?;
            return Ok(len);
        };
        let (_, later) = octets.split_at(header_len(octets));
        if header.size > later.len() as u64 {
            begin_frame(self, header, octets, steps)?;
            return Ok(octets.len());
        }
        self.take_whole(want, header, octets, out, steps)
    }
}
