//! How far the other end has come.

ghost use Rattle.std.specs.Prelude.{◌≡◌};
ghost use Rattle.zre_link.specs.Heard.{expected_of, expected_after};

/// What the other end has to send next.
#[derive(Clone, Copy)]
pub enum Awaits {
    /// The greeting: only this node's own may go out before it.
    Greeting,
    /// READY: after it messages may go out.
    Ready,
    /// Messages and commands: PINGs are answered, and all else is dropped.
    Traffic,
}

impl Awaits {
    /// What comes next when so many items more are whole: the greeting is the first, and READY the second.
    pub fn after(self, items: usize) -> Self
        ensures { expected_of result ≡ expected_after (expected_of self) items }
    {
        match (self, items) {
            (_, 0) => self,
            (Awaits::Greeting, 1) => Awaits::Ready,
            _ => Awaits::Traffic,
        }
    }
}
