//! Code that stands in several crates and can't be a function.

/// Lets go of a value's fields, all of them named: `take_apart!(self, Pair: left, right)` is the body of a `Drop` by
/// hand. A value that is alive at many ways out has one, so that the prover proves it once, and not field by field and
/// form by form at each way out, as it does for a derived one.
#[macro_export]
macro_rules! take_apart {
    ($value:expr, $name:ident: $($field:ident),+) => {
        let $name { $($field: _),+ } = $value;
    };
}

/// Which of a few words a text is, and what is meant by it: `find_word!(text; b"join" Join, b"leave" Leave)` is `Some`
/// of what stands after the first word that is the text, or `None`.
#[macro_export]
macro_rules! find_word {
    ($text:expr;) => {
        None
    };
    ($text:expr; $word:literal $meant:expr $(, $more:literal $next:expr)*) => {
        if $crate::is_word($text, $word) {
            Some($meant)
        } else {
            find_word!($text; $($more $next),*)
        }
    };
}
