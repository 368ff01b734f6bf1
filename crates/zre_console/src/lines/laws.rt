//! Laws of what is typed. The functions do nothing: what they ensure is for proofs.

ghost use Rattle.std.specs.Prelude.{◌≡◌, ℕ, true, false, ◌++◌, ◌∷◌, [], List, length};
ghost use Rattle.std.specs.List.{list_any};
ghost use Rattle.zre_outside.specs.declared.entry.Command.{Command};
ghost use Rattle.zre_outside.specs.declared.entry.Command.TheVariants.{Quit};
ghost use Rattle.zre_capture.specs.Journal.{lines_in};
ghost use Rattle.zre_console.specs.lines.Orders.{orders_from, ended_lines, is_quit, through_quit, typed, orders};
ghost use Rattle.zre_console.specs.lines.Orders.{Begins};
ghost use Rattle.zre_console.specs.lines.Typing.{unfinished, finished};

/// What was typed begins what a longer text types.
pub fn commands_stay()
    ensures { (o x : List ℕ) → typed (o ++ x) ≡ typed o ++ finished o x }
{}

/// Nothing after a quit is an order.
pub fn quit_ends()
    ensures { (o x : List ℕ) → list_any is_quit (typed o) ≡ true → orders (o ++ x) ≡ through_quit (typed o) }
{}

/// Until a quit comes each command is an order, whatever follows.
pub fn commands_are_orders()
    ensures { (o x : List ℕ) → list_any is_quit (typed o) ≡ false → orders (o ++ x) ≡ typed o
        ++ through_quit (orders_from (length (lines_in o)) (ended_lines (lines_in (unfinished o ++ x))) ++ Quit ∷ []) }
{}

/// The orders of a text end with a quit.
pub fn a_quit_ends_the_orders()
    ensures { (o : List ℕ) → Begins [] o }
{}

/// No other order is a quit.
pub fn no_quit_comes_before()
    ensures { (front : List Command) (o : List ℕ) → Begins front o → list_any is_quit front ≡ false }
{}
