//! The frame that isn't whole yet.

ghost use Rattle.std.specs.Prelude.{◌≡◌, ◌+◌, ◌≤◌, ◌<◌, [], ◌++◌, length, None, Some, IsSome, IfOk, OnOk};
ghost use Rattle.std.specs.Option.{ForSome, ForNone};
ghost use Rattle.zre_zmtp.specs.Frame.{header_len, header_of};

use crate::head::Head;
use crate::header::Header;
use crate::looks::{Steps, Store};
use std::alloc::Global;
use std::sync::ledger::Ledger;
use zre_values::{Octets, OutOfMemory};

/// The octets of a frame that isn't whole: those of its header, and apart from them those of its body, which are handed
/// out as they stand.
#[derive(Drop)]
pub struct Partial {
    /// What there is of the flags and the size.
    pub head: Head,
    /// What the header says, once it is there.
    pub header: Option<Header>,
    /// What there is of the body, fewer octets than its size.
    pub body: Store,
    ghost known: { header ≡ header_of head },
    ghost within: { length head ≤ header_len head },
    ghost apart: { ForNone header (body ≡ []) },
    ghost unfinished: { ForSome header (λ said. length body < said.size) },
}

impl Partial {
    /// No octet of a frame has come. It takes no memory.
    pub(crate) fn new(alloc: Global) -> Self
        ensures head { result.head ≡ [] }
        ensures header { result.header ≡ None }
        ensures body { result.body ≡ [] }
    {
        Partial {
            head: Head::new(),
            header: None,
            body: Store::new(alloc),
        }
    }

    /// A frame begins whose header is whole, with octets of its body, fewer than it has. The copy is a look at each.
    #[inline(always)]
    pub(crate) fn begin<L: Ledger>(
        &mut self,
        header: Header,
        head: &[u8],
        body: &[u8],
        steps: &mut Steps<L>,
    ) -> Result<(), OutOfMemory>
        // The header, and what there is of the body.
        requires header { header_of head.now ≡ Some header }
        requires within { length head.now ≤ header_len head.now }
        requires unfinished { length body.now < header.size }
        requires none { self.old.body ≡ [] }
        // What is kept.
        ensures head { OnOk result (self.new.head ≡ head.now) }
        ensures header { OnOk result (self.new.header ≡ Some header) }
        ensures body { OnOk result (self.new.body ≡ body.now) }
        ensures looks { steps.new ≡ steps.old + length body.now }
    {
        self.body.add(body, steps)?;
        self.head = Head::of(head);
        self.header = Some(header);
        Ok(())
    }

    /// A frame begins with a part of its header.
    pub(crate) fn begin_head(&mut self, head: &[u8])
        // The octets are a part of a header, the first that are known of it.
        requires short { header_of head.now ≡ None }
        requires within { length head.now ≤ header_len head.now }
        requires none { self.old.head ≡ [] }
        // What is kept.
        ensures head { self.new.head ≡ head.now }
        ensures body { self.new.body ≡ [] }
    {
        self.head = Head::of(head);
    }

    /// Octets more of the body, which isn't whole with them. The copy is a look at each.
    #[inline(always)]
    pub(crate) fn add<L: Ledger>(
        &mut self,
        octets: &[u8],
        steps: &mut Steps<L>,
    ) -> Result<(), OutOfMemory>
        // The frame is unfinished, also with these octets.
        requires known { IsSome self.old.header }
        requires unfinished { ForSome self.old.header (λ said. length self.old.body + length octets.now < said.size) }
        // What is kept.
        ensures head { (self.new.head ≡ self.old.head) × (self.new.header ≡ self.old.header) }
        ensures body { OnOk result (self.new.body ≡ self.old.body ++ octets.now) }
        // How many octets are looked at.
        ensures looks { steps.new ≡ steps.old + length octets.now }
    {
        self.body.add(octets, steps)
    }

    /// The body ends with these octets: it lies where they do, or in this place, where a part of it was kept. No octet
    /// of a frame is there any more.
    #[inline(always)]
    pub(crate) fn end<'a, L: Ledger>(
        &mut self,
        octets: &'a [u8],
        place: &'a mut Octets,
        steps: &mut Steps<L>,
    ) -> Result<&'a [u8], OutOfMemory>
        ensures body { IfOk result (λ body. body.now ≡ self.old.body ++ octets.now) }
        ensures empty { OnOk result ((self.new.head ≡ []) × (self.new.header ≡ None) × (self.new.body ≡ [])) }
        ensures looks { steps.new ≤ steps.old + length octets.now }
    {
        if self.body.len() == 0 {
            self.header = None;
            self.head.clear();
            return Ok(octets);
        }
        self.body.add(octets, steps)?;
        self.body.give(place);
        self.header = None;
        self.head.clear();
        Ok(place.as_slice())
    }

    /// The same, but the body lies in this place wherever it came from.
    #[inline(always)]
    pub(crate) fn end_in<L: Ledger>(
        &mut self,
        octets: &[u8],
        place: &mut Octets,
        steps: &mut Steps<L>,
    ) -> Result<(), OutOfMemory>
        ensures body { OnOk result (place.new ≡ self.old.body ++ octets.now) }
        ensures empty { OnOk result ((self.new.head ≡ []) × (self.new.header ≡ None) × (self.new.body ≡ [])) }
        ensures looks { steps.new ≡ steps.old + length octets.now }
    {
        self.body.add(octets, steps)?;
        self.body.give(place);
        self.header = None;
        self.head.clear();
        Ok(())
    }
}
