/// A piece of work, and what it answers.
pub trait Task: Send + Drop + 'static {
    /// Its answer.
    type Out: Send + Drop + 'static;

    /// What its answer says of the work.
    ghost means: { Self → Self.Out → Type 0 };
}

/// A piece of work for a thread of its own, which is handed a runtime of this kind.
pub trait Job<R>: Task {
    /// Does the work.
    fn run(self, rt: R) -> Self::Out
        ensures { Self.means self result };
}
