//! A value, and another that is read after it.

ghost use Rattle.std.specs.Prelude.{◌≡◌, Some, IfOk, option_and_then};

use zre_values::OutOfMemory;

/// Both, where the second is there. What was read first is let go where it isn't, or where its reading found no memory.
pub fn both<A: Drop, B>(
    first: A,
    second: Result<Option<B>, OutOfMemory>,
) -> Result<Option<(A, B)>, OutOfMemory>
    ensures { (o : _) → IfOk second (λ found. found ≡ o)
        → IfOk result (λ pair. pair ≡ option_and_then (λ b. Some (first, b)) o) }
{
    match second {
        Ok(Some(second)) => Ok(Some((first, second))),
        Ok(None) => Ok(None),
        Err(OutOfMemory) => Err(OutOfMemory),
    }
}
