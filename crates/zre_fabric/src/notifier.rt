//! What wakes another part of a node.

ghost use Rattle.std.specs.Prelude.{◌≡◌, is_none, true};

use std::alloc::Global;
use std::sync::Arc;

/// A share of the line by which another part of a node is woken. Where nobody is there to be woken, or there was no
/// memory for a share, it is silent.
#[derive(Drop)]
pub struct Notifier<L> {
    line: Option<Arc<L, Global>>,
}

impl<L: Drop> Notifier<L> {
    ghost use Rattle.zre_fabric.specs.Notifiers.{is_silent};

    /// One that wakes nobody.
    pub fn silent() -> Self
        ensures { is_silent result ≡ true }
    {
        Notifier { line: None }
    }

    /// The first share of this line.
    pub(crate) fn over(alloc: Global, line: L) -> Self {
        match Arc::new(alloc, line) {
            Ok(line) => Notifier { line: Some(line) },
            Err(_) => Notifier::silent(),
        }
    }

    /// Another share of the same line.
    pub fn share(&self) -> Self
        ensures { is_silent self.now ≡ true → is_silent result ≡ true }
    {
        let Some(line) = &self.line else {
            return Notifier::silent();
        };
        match Arc::try_clone(line) {
            Ok(line) => Notifier { line: Some(line) },
            Err(_) => Notifier::silent(),
        }
    }

    pub(crate) fn line(&self) -> Option<&L>
        ensures { is_none result ≡ is_silent self.now }
    {
        match &self.line {
            Some(line) => Some(&**line),
            None => None,
        }
    }
}
