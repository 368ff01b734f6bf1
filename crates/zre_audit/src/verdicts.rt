ghost use Rattle.std.specs.Prelude.{◌≡◌, [], ◌∷◌, ◌++◌, decimal, OnOk};
ghost use Rattle.zre_audit.specs.Lines.{line};

use zre_values::{Octets, OutOfMemory, push_decimal};

/// Whether two journals agree.
#[derive(Clone, Copy, Debug, PartialEq, Eq)]
pub enum Verdict {
    /// What each node heard in each run of the other is the beginning of what the other put on a link, on another link
    /// for each run.
    Yes,
    /// It isn't so. This is the first run, the first node's before the second's, for which it can't be: more runs than
    /// links begin with what was heard in it.
    No {
        /// Whose run it is: 1 is the first node, 2 the second.
        side: u8,
        /// Which of its runs of the other it is, counted from 1 in the order in which they started.
        run: u64,
        /// How many of its runs of the other begin with what was heard in this one.
        runs: u64,
        /// On how many links of the other the same was put first.
        links: u64,
    },
}

// Appends a number and an octet after it.
fn push_number(out: &mut Octets, n: u64, after: u8) -> Result<(), OutOfMemory>
    ensures { OnOk result (out.new ≡ out.old ++ (decimal n ++ after ∷ [])) }
{
    push_decimal(out, n)?;
    out.push(after)
}

impl Verdict {
    /// Appends the line of the verdict: `AUDIT yes`, or `AUDIT no SIDE RUN RUNS LINKS`. After an error a front of it
    /// may stand there.
    pub fn push_line(self, out: &mut Octets) -> Result<(), OutOfMemory>
        ensures { OnOk result (out.new ≡ out.old ++ line self) }
    {
        match self {
            Verdict::Yes => out.append(b"AUDIT yes\n"),
            Verdict::No {
                side,
                run,
                runs,
                links,
            } => {
                out.append(b"AUDIT no ")?;
                push_number(out, u64::from(side), b' ')?;
                push_number(out, run, b' ')?;
                push_number(out, runs, b' ')?;
                push_number(out, links, b'\n')
            }
        }
    }
}
